// A place in a text, with its line. It is never past the end, and the line is that of the place.
ghost use Rattle.std.specs.Prelude.{◌≡◌, ◌≤◌, length};
ghost use Rattle.grammar.specs.Scans.{line_at};

#[derive(Drop)]
pub struct Lexer<'a> {
    pub(crate) text: &'a [u8],
    pub(crate) at: usize,
    pub(crate) line: u64,
    ghost within: { at ≤ length text.now },
    ghost placed: { line ≡ line_at text.now at },
}
