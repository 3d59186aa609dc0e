// The rate of a unit for C: include/lisqotay.h.
#![tactic(auto)]

ghost use Rattle.std.specs.Prelude.{◌≡◌};
ghost use Rattle.rate.specs.Rate.{rate};

// Hardware CAS attempts for each thousand finished calls, to the nearest whole number, an exact half to the even one; 0 where
// no call is finished.
#[unsafe(no_mangle)]
pub extern "C" fn lisqotay_rate(hardware_swaps: u32, finished_calls: u32) -> u64
    ensures { result ≡ rate hardware_swaps finished_calls }
{
    rate::lisqotay_rate(hardware_swaps, finished_calls)
}
