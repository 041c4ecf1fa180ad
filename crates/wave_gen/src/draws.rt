// Numbers drawn from a state.
ghost use Rattle.std.specs.Prelude.{◌≡◌, ◌<◌, ◌^◌};
ghost use Rattle.wave_gen.specs.Draws.{next, drawn};

/// One draw: the state takes one step, and its high 31 bits are the number.
#[tactic(auto, unfolding(crate::specs::Draws::next, crate::specs::Draws::drawn))]
pub fn draw(state: &mut u64) -> u32
    ensures state { state.new ≡ next state.old }
    ensures number { result ≡ drawn state.new }
{
    *state = state
        .wrapping_mul(6_364_136_223_846_793_005)
        .wrapping_add(1_442_695_040_888_963_407);
    (*state >> 33) as u32
}
