// The 32 bits that stand for a byte stride in the table. A stride times an element's size may pass 64 bits; their product has 128.

ghost use Rattle.std.specs.Prelude.{◌≡◌, ◌*◌};
ghost use Rattle.laws.specs.Cut.Image.{image};

use region::AllowedMachine;

// What the table holds for a byte stride: itself if it has 32 bits; else, counted from the first multiple of the way above the cache, what it
// leaves by the way. Nothing is divided in 128 bits, which would be a call of the compiler's runtime: a byte stride of more than 64 leaves what
// the product of its factors' remainders leaves.
#[tactic(auto, using(crate::proofs::Rests::rests), unfolding(laws::specs::Cut::Image::image))]
pub fn byte_image(machine: AllowedMachine, stride: u64, size: u64) -> u32
    ensures { result ≡ image machine.numbers (stride * size) }
{
    let bytes = u128::from(stride) * u128::from(size);
    if let Ok(near) = u32::try_from(bytes) {
        return near;
    }
    let way = machine.numbers.way;
    let beyond = (machine.numbers.cache / way + 1) * way;
    let rest = match u64::try_from(bytes) {
        Ok(word) => word % way,
        Err(_) => (stride % way) * (size % way) % way,
    };
    (beyond + rest) as u32
}
