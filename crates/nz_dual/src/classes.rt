// The degrees of a list, in classes of one degree.
ghost use Rattle.std.specs.Prelude.{◌≡◌, ◌∷◌, ◌++◌, [], ◌<◌, ◌^◌, length, slice_index, Contains, IfOk, OnOk, OnErr, MatchOption};
ghost use Rattle.std.specs.List.{AllByRecursion as Each};
ghost use Rattle.nz_dual.specs.DegreeClasses.{IsEnd};

use nz_vec::NoMemory;
use std::alloc::Global;
use std::marker::Model;

/// The degrees of the places of a list. The places of one degree are linked, from the last one back to
/// the first, so that those of a class are found without a look at others.
#[derive(Drop)]
pub(crate) struct DegreeClasses {
    degrees: Vec<u128>,
    /// The different degrees.
    classes: Vec<u128>,
    /// For each class 1 more than its last place, or 0.
    ends: Vec<usize>,
    /// For each place 1 more than the place before it in its class, or 0.
    links: Vec<usize>,
}

impl Model for DegreeClasses {
    ghost use Rattle.nz_dual.specs.DegreeClasses.{ClassLists, AreClasses};

    ghost Value = { ClassLists };

    ghost view = { λ s. record { degrees = s.degrees.items; classes = s.classes.items } };

    ghost invariant = { λ s. AreClasses s.degrees.items s.classes.items s.ends.items s.links.items };
}

impl DegreeClasses {
    pub(crate) fn new(alloc: Global) -> DegreeClasses
        ensures { result.degrees ≡ [] }
    {
        DegreeClasses {
            degrees: Vec::new(alloc),
            classes: Vec::new(alloc),
            ends: Vec::new(alloc),
            links: Vec::new(alloc),
        }
    }

    /// Appends the degree of one place more.
    pub(crate) fn push(&mut self, degree: u128) -> Result<(), NoMemory>
        requires { degree < 2 ^ 127 }
        ensures ok { OnOk result (self.new.degrees ≡ self.old.degrees ++ degree ∷ []) }
        ensures err { OnErr result (self.new.degrees ≡ self.old.degrees) }
    {
        let class = match self.class_of(degree) {
            Some(class) => class,
            None => match self.begin(degree) {
                Ok(class) => class,
                Err(refusal) => return Err(refusal),
            },
        };
        self.extend(class, degree)
    }

    /// Which class has this degree.
    fn class_of(&self, degree: u128) -> Option<usize>
        ensures { MatchOption result (¬ Contains self.now.classes degree) (λ c. (c < length self.now.classes) × (slice_index self.now.classes c ≡ degree)) }
    {
        for class in 0..self.classes.len() {
            if self.classes[class] == degree {
                return Some(class);
            }
        }
        None
    }

    /// Begins a class of no places.
    fn begin(&mut self, degree: u128) -> Result<usize, NoMemory>
        requires small { degree < 2 ^ 127 }
        requires new { ¬ Contains self.old.classes degree }
        ensures degrees { self.new.degrees ≡ self.old.degrees }
        ensures class { IfOk result (λ c. (c < length self.new.classes) × (slice_index self.new.classes c ≡ degree)) }
    {
        match self.ends.reserve(1) {
            Ok(()) => {}
            Err(_) => return Err(NoMemory),
        }
        let class = self.classes.len();
        match self.classes.push(degree) {
            Ok(()) => {}
            Err(_) => return Err(NoMemory),
        }
        self.ends.push_reserved(0);
        Ok(class)
    }

    /// Appends the degree of a place, which its class then has.
    fn extend(&mut self, class: usize, degree: u128) -> Result<(), NoMemory>
        requires class { class < length self.old.classes }
        requires degree { slice_index self.old.classes class ≡ degree }
        ensures ok { OnOk result (self.new.degrees ≡ self.old.degrees ++ degree ∷ []) }
        ensures err { OnErr result (self.new.degrees ≡ self.old.degrees) }
    {
        match self.links.reserve(1) {
            Ok(()) => {}
            Err(_) => return Err(NoMemory),
        }
        match self.degrees.push(degree) {
            Ok(()) => {}
            Err(_) => return Err(NoMemory),
        }
        self.links.push_reserved(self.ends[class]);
        self.ends[class] = self.degrees.len();
        Ok(())
    }

    /// The degrees of the classes.
    pub(crate) fn classes(&self) -> &[u128]
        ensures value { result.now ≡ self.now.classes }
        ensures all { Each (Contains self.now.classes) self.now.degrees }
        ensures small { Each (λ d. d < 2 ^ 127) self.now.classes }
    {
        self.classes.as_slice()
    }

    /// Behind the last place of a class, or 0.
    pub(crate) fn end_of(&self, class: usize) -> usize
        requires { class < length self.now.classes }
        ensures { IsEnd self.now.degrees (slice_index self.now.classes class) (length self.now.degrees) result }
    {
        self.ends[class]
    }

    /// Behind the place before a place in its class, or 0.
    pub(crate) fn end_before(&self, place: usize) -> usize
        requires { place < length self.now.degrees }
        ensures { IsEnd self.now.degrees (slice_index self.now.degrees place) place result }
    {
        self.links[place]
    }
}
