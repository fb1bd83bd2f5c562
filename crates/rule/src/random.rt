// Random numbers for tests, the same at each run: those of Lehmer's generator.
ghost use Rattle.std.specs.Prelude.{◌≡◌, ◌/◌, ◌%◌, slice_get};
ghost use Rattle.rule.specs.Random.{after};

// The last number drawn, or the seed.
#[derive(Clone, Copy)]
pub struct Random {
    state: u64,
}

impl Random {
    // The numbers after a seed.
    pub fn new(seed: u64) -> Random
        ensures { result.state ≡ seed }
    {
        Random { state: seed }
    }

    // The next number.
    pub fn next(&mut self) -> u64
        ensures drawn { result ≡ after self.old.state }
        ensures kept { self.new.state ≡ result }
    {
        self.state = self.state % 2147483647 * 48271 % 2147483647;
        self.state
    }

    // One of eight values.
    pub fn pick<T: Copy>(&mut self, choice: &[T; 8]) -> T
        ensures picked { slice_get choice.now (self.new.state / 256 % 8) ≡ Some result }
        ensures kept { self.new.state ≡ after self.old.state }
    {
        let k = (self.next() / 256 % 8) as usize;
        choice[k]
    }
}
