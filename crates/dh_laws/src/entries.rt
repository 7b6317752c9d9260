//! What every command holds that a line can hold.

ghost use Rattle.dh_laws.specs.InOrder.{IsEntered};

use dh_types::Command;

/// A lease has 3 to 12 months, and so has its end, since their type holds no other number.
pub fn commands_are_entered(command: &Command)
    ensures { IsEntered command.now }
{
    match command {
        Command::Lease(terms) => {
            let _months = terms.months.number();
        }
        Command::End(it) => {
            let _months = it.months.number();
        }
        _ => {}
    }
}
