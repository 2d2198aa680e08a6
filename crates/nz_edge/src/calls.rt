ghost use Rattle.std.specs.Prelude.{◌≡◌, ◌↔◌, IsTrue};
ghost use Rattle.nz_edge.specs.Calls.{IsListed, IsOneMore};

use nz_watch::raise;

/// The calls of an object in memory: how many were made, and the numbers, from 1, of those that fail.
#[derive(Drop)]
pub struct Calls {
    made: u64,
    fail: Vec<u64>,
}

impl Calls {
    pub fn new(fail: Vec<u64>) -> Calls
        ensures made { result.made ≡ 0 }
        ensures list { result.fail.items ≡ fail.items }
    {
        Calls { made: 0, fail }
    }

    /// Counts one call more, and says whether it fails.
    pub fn next_fails(&mut self) -> bool
        ensures listed { IsTrue result ↔ IsListed self.old }
        ensures one_more { IsOneMore self.old self.new }
    {
        raise(&mut self.made);
        self.fail.contains(&self.made)
    }
}
