//! The numbers of commits among those of their CPU.

ghost use Rattle.std.specs.Prelude.{◌≡◌, ℕ, ◌+◌, ◌^◌, ◌<◌};
ghost use Rattle.rmm_spec.specs.Cell.{put};
ghost use Rattle.commit_tickets.specs.Listed.{numbers_of};

/// The number of each CPU's next commit, while the journal is gone through.
#[derive(Drop)]
pub struct Numbers {
    next: [usize; 8],
}

impl Numbers {
    /// Before the journal's first commit.
    pub fn new() -> Numbers
        ensures { (cpu : ℕ) → numbers_of result cpu ≡ 0 }
    {
        Numbers { next: [0; 8] }
    }

    /// The number of a CPU's commit, which comes next in the journal.
    pub fn count(&mut self, cpu: u8) -> usize
        requires cpu { cpu < 8 }
        requires more { numbers_of self.old cpu + 1 < 2 ^ 64 }
        ensures number { result ≡ numbers_of self.old cpu }
        ensures counted { numbers_of self.new ≡ put (numbers_of self.old) cpu (numbers_of self.old cpu + 1) }
    {
        let next = &mut self.next[usize::from(cpu)];
        let number = *next;
        *next = number + 1;
        number
    }

    /// How many commits a CPU has had.
    pub(crate) fn of(&self, cpu: usize) -> usize
        requires { cpu < 8 }
        ensures { result ≡ numbers_of self.now cpu }
    {
        self.next[cpu]
    }
}
