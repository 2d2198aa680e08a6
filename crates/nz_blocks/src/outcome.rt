use crate::AskedList;
use nz_vec::{PlaceLists, Rows};
use std::marker::Model;

/// What a run found: each list where it is wanted. Rows have `amb` entries, and one more, the level,
/// where there is one.
///
/// `equations` come with `support`, `simplices` with `generators`, and `vertices` come with `rays`
/// where there is a level, as `modules` do only there. `degree_one` comes with `denominator`, and
/// `asked` with `hilbert`, and with `modules` where there is a level.
#[derive(Drop)]
pub struct Outcome {
    /// The number after `amb_space`, 1 to 64.
    pub amb: u32,
    /// Whether the last entry of each row is a level.
    pub level: bool,
    /// What degrees are divided by, at least 1, where a grading is given.
    pub denominator: Option<i128>,
    /// The module generators.
    pub modules: Option<Rows<i128>>,
    /// The Hilbert basis; where there is a level, that of the recession monoid.
    pub hilbert: Option<Rows<i128>>,
    /// The elements of the Hilbert basis whose degree, divided by the denominator, is 1.
    pub degree_one: Option<Rows<i128>>,
    /// The extreme generators of positive level.
    pub vertices: Option<Rows<i128>>,
    /// The extreme generators; where there is a level, those of level 0.
    pub rays: Option<Rows<i128>>,
    /// The support forms.
    pub support: Option<Rows<i128>>,
    /// The equations.
    pub equations: Option<Rows<i128>>,
    /// All extreme generators.
    pub generators: Option<Rows<i128>>,
    /// The simplices of a cover, by places, from 0, of the extreme generators.
    pub simplices: Option<PlaceLists>,
    /// The asked vectors with their answers.
    pub asked: Option<AskedList>,
}

impl Model for Outcome {
    ghost use Rattle.nz_blocks.specs.Outcomes.{OutcomeData, IsOutcome};

    ghost Value = { OutcomeData };

    ghost view = { λ o. record { amb = o.amb; level = o.level; denominator = o.denominator; modules = o.modules; hilbert = o.hilbert; degree_one = o.degree_one; vertices = o.vertices; rays = o.rays; support = o.support; equations = o.equations; generators = o.generators; simplices = o.simplices; asked = o.asked } };

    ghost invariant = { λ o. IsOutcome (record { amb = o.amb; level = o.level; denominator = o.denominator; modules = o.modules; hilbert = o.hilbert; degree_one = o.degree_one; vertices = o.vertices; rays = o.rays; support = o.support; equations = o.equations; generators = o.generators; simplices = o.simplices; asked = o.asked }) };
}
