ghost use Rattle.std.specs.Prelude.{◌≡◌, ◌≤◌, ◌^◌, length};

// The angles that a first walk gathered, as many current as desired ones.
#[derive(Clone, Copy)]
pub struct Angles<'a> {
    pub current: &'a [f64],
    pub desired: &'a [f64],
    pub ghost as_many: { length current.now ≡ length desired.now },
    pub ghost few: { length current.now ≤ 2 ^ 53 },
}
