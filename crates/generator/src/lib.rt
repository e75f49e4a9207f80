// The generator: its state is lent to each draw and moved on by it. Each call is thin, over one of `draws` on the number.
// Two more take the generator by value and return it, over the lent ones.
// Kept: document 01 asks for a one-number struct lent by `&mut`, thin over a covered function on the number; so a draw and a set's draw
// are here and in `draws`.
#![tactic(auto)]

ghost use Rattle.rules.specs.Generator.{Draws, DrawsSet};

use rules::Refusal;

// What a draw needs: the state, at first the seed.
#[derive(Clone, Copy)]
pub struct Generator {
    pub state: u32,
}

// THE DRAW. The number drawn; the state is moved on.
pub fn draw(g: &mut Generator) -> u32
    ensures { Draws g.old.state result g.new.state }
{
    draws::draw_from(&mut g.state)
}

// THE SET of a number goes to the start of a table; the answer is the task count, and the state is moved on. Where the table is too short,
// nothing is.
pub fn draw_set(g: &mut Generator, number: u32, table: &mut [u32]) -> Result<u32, Refusal>
    ensures { DrawsSet g.old.state number table.old result g.new.state table.new }
{
    draws::draw_set_from(&mut g.state, number, table)
}

// The draw for a caller that holds the generator by value: what was drawn, and the generator after it.
pub fn draw_value(mut g: Generator) -> (u32, Generator)
    ensures { Draws g.state result.0 result.1.state }
{
    (draw(&mut g), g)
}

// The set's draw for such a caller: what it answered, and the generator after it.
pub fn draw_set_value(
    mut g: Generator,
    number: u32,
    table: &mut [u32],
) -> (Result<u32, Refusal>, Generator)
    ensures { DrawsSet g.state number table.old result.0 result.1.state table.new }
{
    (draw_set(&mut g, number, table), g)
}
