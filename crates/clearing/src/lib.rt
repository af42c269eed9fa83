// Clearing lent buffers: each element 0, in the whole length. One function for every width.
#![tactic(auto)]

ghost use Rattle.std.specs.Prelude.{◌≡◌, length, replicate};

// Each element becomes `zero`. (Over the index and not `iter_mut`: so a must-fail edit can turn the place that is stored at, or where the loop begins, and nothing else.)
pub fn clear<T: Copy>(lent: &mut [T], zero: T)
    ensures { lent.new ≡ replicate (length lent.old) zero }
{
    for i in 0..lent.len() {
        lent[i] = zero;
    }
}
