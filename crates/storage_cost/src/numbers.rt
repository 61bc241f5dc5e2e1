ghost use Rattle.std.specs.Prelude.{◌<◌};

/// Numbers that look random, the same in each run.
#[derive(Clone, Copy)]
pub(crate) struct Numbers(u64);

impl Numbers {
    pub(crate) fn new() -> Numbers {
        Numbers(88_172_645_463_325_252)
    }

    /// The next number below a bound of at least 1.
    pub(crate) fn below(&mut self, bound: u32) -> u32
        requires { 0 < bound }
        ensures { result < bound }
    {
        let n = self.0;
        self.0 = n
            .wrapping_mul(6_364_136_223_846_793_005)
            .wrapping_add(1_442_695_040_888_963_407);
        (n >> 33) as u32 % bound
    }
}

/// A number that depends on all that went in, in its order.
pub(crate) fn folded(sum: u64, number: u64) -> u64 {
    sum.wrapping_mul(31).wrapping_add(number)
}
