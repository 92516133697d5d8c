// An interval of whole millimetres, never empty and never beyond the farthest coordinate: its type says so.
ghost use Rattle.std.specs.Prelude.{◌≡◌, true};
ghost use Rattle.tube.specs.Spans.{spans};

mod operations;

#[derive(Clone, Copy, Debug, Eq, PartialEq)]
pub struct Interval {
    pub low: i32,
    pub high: i32,
    ghost spanned: { spans low high ≡ true },
}
