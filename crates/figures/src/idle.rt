// A contractor that never narrows: every trajectory obeys it.
ghost use Rattle.std.specs.Prelude.{◌≡◌, true};
ghost use Rattle.figures.specs.Idles.{are_figures};

mod contracting;

#[derive(Clone, Copy)]
pub struct Idle {
    need: usize,
    height: u8,
    ceiling: u64,
    ghost limited: { are_figures need height ceiling ≡ true },
}
