//! The port behind `serve`.

ghost use Rattle.std.specs.Prelude.{◌≡◌, None, Some, MatchResult};
ghost use Rattle.dh_arguments.specs.Options.{port_of};
ghost use Rattle.dh_arguments.specs.declared.ports.TheConstants.{MOST_PORT};

use dh_types::BadText;
use dh_values::Bounded;

/// The greatest port.
pub(crate) const MOST_PORT: u32 = 65_535;

/// The greatest port in figures, which no definition says.
pub fn most_port_in_figures()
    ensures { MOST_PORT ≡ 65_535 }
{}

/// The port that the text spells in decimal digits, without a leading zero but in 0 itself. `BadText` where it spells none.
pub(crate) fn port_from_text(text: &str) -> Result<u16, BadText>
    ensures { MatchResult result (λ port. port_of text.now ≡ Some port) (λ _. port_of text.now ≡ None) }
{
    let port = Bounded::<(), 0, MOST_PORT>::read(text)?;
    Ok(port.number() as u16)
}
