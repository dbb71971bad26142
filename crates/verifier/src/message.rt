// A checked message: good code with the kinds of its arguments. It is made once, and said any number of times without a check.
ghost use Rattle.std.specs.Prelude.{◌≡◌, ◌≤◌, true, length};
ghost use Rattle.code.specs.Step.{decode};
ghost use Rattle.code.specs.Code.{good};

use code::Code;

#[derive(Clone, Copy, Debug)]
pub struct Message<'a> {
    pub(crate) code: Code<'a>,
    // As bytes, as the entries are lent them, whose form is fixed: nothing is copied.
    pub(crate) kinds: &'a [u8],
    ghost short: { length code.bytes.now ≤ 4096 },
    ghost few: { length kinds.now ≤ 16 },
    ghost good: { good decode kinds.now code.bytes.now ≡ true },
}
