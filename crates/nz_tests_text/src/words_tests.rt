//! The words of worked command lines, and what they order.
use nz_words::{RunOrder, WatchChoice, WordsRefusal, order, watch_choice};
use std::alloc::Global;
use std::test::Fail;

// Words with `|` between them, and their order as text: project, limit, whether stages are printed, after how many the run stops, the
// side of a made file where there is one, goals.
const CASES: [(&str, &str); 60] = [
    ("", "usage"),
    ("--LatticePoints|p", "p 100000 false None LatticePoints"),
    ("--Lattice|p", "usage"),
    ("p", "p 100000 false None"),
    ("p|q", "usage"),
    ("p.in", "p 100000 false None"),
    ("p.in.in", "p.in 100000 false None"),
    (".in", "usage"),
    ("p|", "usage"),
    ("--Limit|0|p", "usage"),
    ("--Limit|1|p", "p 1 false None"),
    ("--Limit=250000|p", "p 250000 false None"),
    ("--Limit=250001|p", "usage"),
    ("p.in|--Limit=8", "p 8 false None"),
    ("--Limit|8|p", "p 8 false None"),
    ("--DualMode|--PrimalMode|p", "usage"),
    (
        "--PrimalMode|--HilbertBasis|p",
        "p 100000 false None HilbertBasis PrimalMode",
    ),
    ("--Verbose|--Verbose|p", "usage"),
    ("-x|p", "usage"),
    ("--Make|0|p", "usage"),
    ("--Make|1|p", "p 100000 false None made 1"),
    ("--Make|20|p.in", "p 100000 false None made 20"),
    ("--Make=150|p", "p 100000 false None made 150"),
    ("--Make|151|p", "usage"),
    ("--Make|20|--Make=20|p", "usage"),
    ("--Make|p", "usage"),
    ("--Make=|p", "usage"),
    ("p|--Make", "usage"),
    (
        "--Make|5|--Stages|2|--DualMode|p",
        "p 100000 false Some(2) made 5 DualMode",
    ),
    ("--Stages|3|--Verbose|p", "p 100000 true Some(3)"),
    ("--Stages|0|p", "p 100000 false Some(0)"),
    ("--Stages=1000000|p", "p 100000 false Some(1000000)"),
    ("--Stages=1000001|p", "usage"),
    ("--Verbose|p|q", "usage"),
    ("--Limit|000000007|p", "p 7 false None"),
    ("--Limit|0000000007|p", "usage"),
    ("--Limit|+7|p", "usage"),
    ("--Limit=|p", "usage"),
    ("p|--Limit", "usage"),
    ("--Limit|7|--Limit=7|p", "usage"),
    ("--Limit=7=7|p", "usage"),
    ("--help", "usage"),
    ("--version", "usage"),
    ("-h|p", "usage"),
    ("help", "help 100000 false None"),
    ("--Limit|--|p", "usage"),
    ("--Limit|--Verbose|p", "usage"),
    ("--Limit|-7|p", "usage"),
    ("p|--", "p 100000 false None"),
    ("--|p", "p 100000 false None"),
    ("--|p|--", "usage"),
    ("--|--", "usage"),
    ("--|-p", "usage"),
    ("--|--Verbose|p", "usage"),
    ("-", "usage"),
    ("--Verbose=|p", "usage"),
    ("--Verb|p", "usage"),
    ("--Lim=7|p", "usage"),
    ("--=7|p", "usage"),
    ("p in", "p in 100000 false None"),
];

// The same for the kinds of runs.
const KIND_CASES: [(&str, &str); 18] = [
    ("--Convert|p", "p 100000 false None convert"),
    ("p.in|--Convert|--Limit=8", "p 8 false None convert"),
    ("--Convert|--Convert|p", "usage"),
    ("--Convert=1|p", "usage"),
    ("--Units|p", "p 100000 false None units"),
    ("p.in|--Units|--Limit=8", "p 8 false None units"),
    (
        "--Units|--DualMode|--Limit|1|p",
        "p 1 false None units DualMode",
    ),
    ("--Units|--Units|p", "usage"),
    ("--Units=1|p", "usage"),
    ("--Units", "usage"),
    ("--Unit|p", "usage"),
    ("--Units|--Convert|p", "usage"),
    ("--Convert|--Units|p", "usage"),
    ("p|--Convert|--Verbose|--Units", "usage"),
    ("--|p|--Units", "usage"),
    ("--Limit|--Units|p", "usage"),
    ("--Convert|--|--Units", "usage"),
    ("--Conv|p", "usage"),
];

fn words_of(alloc: Global, line: &str) -> Result<Vec<String>, Fail> {
    let mut words = Vec::new(alloc);
    if line.is_empty() {
        return Ok(words);
    }
    for word in line.split('|') {
        words.push(String::from_str(alloc, word)?)?;
    }
    Ok(words)
}

fn shown(alloc: Global, order: &RunOrder) -> Result<String, Fail> {
    let project = order.project.as_str();
    let limit = order.limit;
    let verbose = order.verbose;
    let stages = order.stages;
    let mut text = format!(in alloc; "{project} {limit} {verbose} {stages:?}")?;
    match order.make {
        Some(side) => text = format!(in alloc; "{text} made {side}")?,
        None => {}
    }
    if order.convert {
        text = format!(in alloc; "{text} convert")?;
    }
    if order.units {
        text = format!(in alloc; "{text} units")?;
    }
    for place in 0..order.goals.len() {
        let goal = order.goals.at(place);
        text = format!(in alloc; "{text} {goal:?}")?;
    }
    Ok(text)
}

// The order as text, and what the watch is then chosen by.
fn expected(alloc: Global, words: &[String]) -> Result<(String, WatchChoice), Fail> {
    match order(alloc, words) {
        Ok(order) => Ok((
            shown(alloc, &order)?,
            WatchChoice {
                verbose: order.verbose,
                stages: order.stages,
            },
        )),
        Err(WordsRefusal::Usage) => Ok((
            String::from_str(alloc, "usage")?,
            WatchChoice {
                verbose: false,
                stages: None,
            },
        )),
        Err(WordsRefusal::NoMemory) => Err(Fail::from("no memory")),
    }
}

// Whether the words order just this, and the watch is chosen by it.
fn is_ordered(alloc: Global, line: &str, text: &str) -> Result<bool, Fail> {
    let words = words_of(alloc, line)?;
    let (answer, choice) = expected(alloc, words.as_slice())?;
    Ok(answer.as_str() == text && watch_choice(alloc, words.as_slice())? == choice)
}

#[test]
fn orders_what_the_words_say(rt: HostRuntime) -> Result<(), Fail> {
    for (line, text) in CASES {
        assert!(rt; is_ordered(rt.alloc(), line, text)?, "at {line}");
    }
    Ok(())
}

#[test]
fn orders_kinds_of_runs(rt: HostRuntime) -> Result<(), Fail> {
    for (line, text) in KIND_CASES {
        assert!(rt; is_ordered(rt.alloc(), line, text)?, "at {line}");
    }
    Ok(())
}
