//! How slots are used one after another.

ghost use Rattle.std.specs.Prelude.{◌≡◌, ◌==◌, ◌+◌, if◌then◌else◌, None, Some};
ghost use Rattle.fm_ctx.specs.Births.{last_generation};

/// The generation that follows another one in a slot; none follows 2^32 - 1.
#[tactic(auto, unfolding(crate::specs::Births::last_generation))]
pub fn next_generation(generation: u32) -> Option<u32>
    ensures { result ≡ (if generation == last_generation then None else Some (generation + 1)) }
{
    generation.checked_add(1)
}
