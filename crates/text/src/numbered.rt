// The lines of a text, one after another, with their numbers.
ghost use Rattle.std.specs.Prelude.{◌+◌, ◌^◌, ◌<◌, length};

mod taking;

// What is left of a text after `number` of its lines.
#[derive(Drop)]
pub struct Lines<'a> {
    rest: &'a [u8],
    number: u64,
    ghost countable: { number + length rest.now < 2 ^ 64 },
}
