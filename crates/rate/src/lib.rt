// The rate of a unit. The crate rate_c exports it to C.
#![tactic(auto)]

ghost use Rattle.std.specs.Prelude.{◌≡◌};
ghost use Rattle.rate.specs.Rate.{rate};

// Hardware CAS attempts for each thousand finished calls, to the nearest whole number, an exact half to the even one; 0 where
// no call is finished.
pub fn lisqotay_rate(hardware_swaps: u32, finished_calls: u32) -> u64
    ensures { result ≡ rate hardware_swaps finished_calls }
{
    if finished_calls == 0 {
        return 0;
    }
    let n = hardware_swaps as u64 * 1000;
    let f = finished_calls as u64;
    let whole = n / f;
    let rest = n % f;
    if (f < 2 * rest) | ((2 * rest == f) & (whole % 2 == 1)) {
        return whole + 1;
    }
    whole
}
