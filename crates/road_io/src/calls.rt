ghost use Rattle.std.specs.Prelude.{◌≡◌, ◌≤◌, if◌then◌else◌};
ghost use Rattle.road_io.specs.Calls.{is_to_fail, one_more};

/// The calls of an object in memory, of which some are to fail.
#[derive(Drop)]
pub(crate) struct Calls<'a> {
    failing: &'a [u64],
    made: u64,
    faults: u64,
}

impl<'a> Calls<'a> {
    pub(crate) fn new(failing: &'a [u64]) -> Self
        ensures failing { result.failing.now ≡ failing.now }
        ensures made { result.made ≡ 0 }
        ensures faults { result.faults ≡ 0 }
    {
        Calls {
            failing,
            made: 0,
            faults: 0,
        }
    }

    pub(crate) fn faults(&self) -> u64
        ensures { result ≡ self.now.faults }
    {
        self.faults
    }

    /// Counts a call, and its fault where it is to fail. Tells whether it is.
    pub(crate) fn fails(&mut self) -> bool
        ensures answer { result ≡ is_to_fail self.old }
        ensures failing { self.new.failing.now ≡ self.old.failing.now }
        ensures made { self.new.made ≡ one_more self.old.made }
        ensures faults { self.new.faults ≡ (if result then one_more self.old.faults else self.old.faults) }
        ensures count { self.old.faults ≤ self.new.faults }
    {
        let fails = self.failing.contains(&self.made);
        self.made = self.made.saturating_add(1);
        if fails {
            self.faults = self.faults.saturating_add(1);
        }
        fails
    }

    /// Counts a fault that was not planned.
    pub(crate) fn fault(&mut self)
        ensures failing { self.new.failing.now ≡ self.old.failing.now }
        ensures made { self.new.made ≡ self.old.made }
        ensures faults { self.new.faults ≡ one_more self.old.faults }
        ensures count { self.old.faults ≤ self.new.faults }
    {
        self.faults = self.faults.saturating_add(1);
    }
}
