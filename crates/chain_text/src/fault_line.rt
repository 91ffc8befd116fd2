//! The line that tells a fault.

ghost use Rattle.std.specs.Prelude.{◌≡◌, IfOk, IfSome, string_bytes};
ghost use Rattle.chain_spec.specs.ChainFault as spec;
ghost use Rattle.lpm_fw.specs.RouteView.{fault_view};
ghost use Rattle.chain_text.specs.Gives.{seen};

use crate::fault::ChainFault;
use brick_base::NoMemory;
use lpm_fw::RouteFault;
use std::alloc::Global;

/// What is wrong with a table of routes, and which rows these are.
#[tactic(auto, unfolding(chain_spec::specs::ChainFault::route_words))]
fn route_words(alloc: Global, fault: &RouteFault) -> Result<String, NoMemory>
    ensures { IfOk result (λ text. IfSome (fault_view fault.now) (λ f. string_bytes text ≡ spec.route_words f)) }
{
    let text = match fault {
        RouteFault::SamePrefix { first, second } => {
            format!(in alloc; " SamePrefix first={first} second={second}")?
        }
        RouteFault::HostBits { row } => format!(in alloc; " HostBits row={row}")?,
        RouteFault::NoMemory => return Err(NoMemory),
    };
    Ok(text)
}

/// The number and the name of the fault, and where it is.
#[tactic(auto, unfolding(chain_spec::specs::ChainFault::fault_words))]
fn fault_words(alloc: Global, fault: &ChainFault) -> Result<String, NoMemory>
    ensures { IfOk result (λ text. IfSome (seen fault.now) (λ f. string_bytes text ≡ spec.fault_words f)) }
{
    let text = match fault {
        ChainFault::NotToml => String::from_str(alloc, "1 NotToml")?,
        ChainFault::Missing { place, key } => {
            let key = key.as_str();
            format!(in alloc; "2 Missing place={place} key={key}")?
        }
        ChainFault::Unknown { place, key } => {
            let key = key.as_str();
            format!(in alloc; "3 Unknown place={place} key={key}")?
        }
        ChainFault::Range { place, key } => {
            let key = key.as_str();
            format!(in alloc; "4 Range place={place} key={key}")?
        }
        ChainFault::Name { place } => format!(in alloc; "5 Name place={place}")?,
        ChainFault::SecondWindow { place } => format!(in alloc; "6 SecondWindow place={place}")?,
        ChainFault::Route { place, fault } => {
            let rows = route_words(alloc, fault)?;
            format!(in alloc; "7 Route place={place}{rows}")?
        }
        ChainFault::TooManyTenants { count } => {
            format!(in alloc; "8 TooManyTenants count={count}")?
        }
        ChainFault::Collides { name } => {
            let name = name.as_str();
            format!(in alloc; "9 Collides {name}")?
        }
        ChainFault::TooLong => String::from_str(alloc, "10 TooLong")?,
        ChainFault::NoMemory => return Err(NoMemory),
    };
    Ok(text)
}

/// The line of a fault, which ends with a line feed. Want of memory has none.
pub fn fault_text(alloc: Global, fault: &ChainFault) -> Result<String, NoMemory>
    ensures { IfOk result (λ text. IfSome (seen fault.now) (λ f. string_bytes text ≡ spec.fault_text f)) }
{
    let words = fault_words(alloc, fault)?;
    let text = format!(in alloc; "chains: {words}\n")?;
    Ok(text)
}
