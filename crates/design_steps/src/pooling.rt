// The constants of expressions, put into a pool.
ghost use Rattle.std.specs.Prelude.{◌≡◌, ◌++◌, ◌∷◌, [], IsTrue, OnOk};
ghost use Rattle.typed_ir.specs.Sized.{agrees, Repeat};
ghost use Rattle.typed_ir.specs.Forms.{sized};
ghost use Rattle.design_steps.specs.Expressions.{constants_of};
ghost use Rattle.design_steps.specs.Pooled.{Holds};

use crate::operators::copies_of_one;
use indexmap::IndexSet;
use ls_text::NoMemory;
use typed_ir::Form;

/// Puts a constant into the pool, if it isn't there.
pub fn pool_value(value: u128, pool: &mut IndexSet<u128>) -> Result<(), NoMemory>
    ensures { OnOk result (Holds pool.old.keys pool.new.keys (value ∷ [])) }
{
    pool.insert(value)?;
    Ok(())
}

// The constants of two expressions.
#[cycle(pool)]
fn pool_two(a: &Form, b: &Form, pool: &mut IndexSet<u128>) -> Result<(), NoMemory>
    requires first { IsTrue (agrees (sized a.now)) }
    requires second { IsTrue (agrees (sized b.now)) }
    ensures { OnOk result (Holds pool.old.keys pool.new.keys (constants_of (sized a.now) ++ constants_of (sized b.now))) }
{
    pool_form(a, pool)?;
    pool_form(b, pool)
}

// The constants of three expressions.
#[cycle(pool)]
fn pool_three(c: &Form, a: &Form, b: &Form, pool: &mut IndexSet<u128>) -> Result<(), NoMemory>
    requires zeroth { IsTrue (agrees (sized c.now)) }
    requires first { IsTrue (agrees (sized a.now)) }
    requires second { IsTrue (agrees (sized b.now)) }
    ensures { OnOk result (Holds pool.old.keys pool.new.keys (constants_of (sized c.now) ++ (constants_of (sized a.now) ++ constants_of (sized b.now)))) }
{
    pool_form(c, pool)?;
    pool_two(a, b, pool)
}

/// The constants of an index, and how many bits lie below it.
#[cycle(pool)]
pub fn pool_index(index: &Form, below: u32, pool: &mut IndexSet<u128>) -> Result<(), NoMemory>
    requires { IsTrue (agrees (sized index.now)) }
    ensures { OnOk result (Holds pool.old.keys pool.new.keys (constants_of (sized index.now) ++ below ∷ [])) }
{
    pool_form(index, pool)?;
    pool_value(below as u128, pool)
}

// The constants of a value that is repeated, and the copies of a 1 with which it is multiplied.
#[cycle(pool)]
fn pool_repeat(width: u8, count: u8, a: &Form, pool: &mut IndexSet<u128>) -> Result<(), NoMemory>
    requires { IsTrue (agrees (Repeat width count (sized a.now))) }
    ensures { OnOk result (Holds pool.old.keys pool.new.keys (constants_of (Repeat width count (sized a.now)))) }
{
    pool_form(a, pool)?;
    let one = width / count;
    pool_value(copies_of_one(count, one, width), pool)
}

/// Puts the constants of an expression into the pool, each once. Want of memory is `NoMemory`.
#[cycle(pool)]
#[tactic(auto, using(crate::proofs::Holding::holds_none))]
pub fn pool_form(e: &Form, pool: &mut IndexSet<u128>) -> Result<(), NoMemory>
    requires { IsTrue (agrees (sized e.now)) }
    ensures { OnOk result (Holds pool.old.keys pool.new.keys (constants_of (sized e.now))) }
{
    match e {
        Form::Constant(bits) => pool_value(bits.value, pool),
        Form::Name { .. } | Form::Part(_) => Ok(()),
        Form::Pick { below, index, .. } => pool_index(index, *below, pool),
        Form::Unary { operand, .. } => pool_form(operand, pool),
        Form::Binary { left, right, .. } => pool_two(left, right, pool),
        Form::Choice {
            condition,
            consequent,
            alternative,
        } => pool_three(condition, consequent, alternative, pool),
        Form::Concat { high, low, .. } => pool_two(high, low, pool),
        Form::Repeat { width, count, part } => pool_repeat(*width, *count, part, pool),
        Form::Resized { operand, .. } => pool_form(operand, pool),
    }
}
