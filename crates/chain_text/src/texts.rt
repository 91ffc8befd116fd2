//! Values that a text writes.

ghost use Rattle.std.specs.Prelude.{◌≡◌, ◌≤◌, false, IfOk, IsTrue, length, map, option_map};
ghost use Rattle.toml.specs.View.{view};
ghost use Rattle.brick_spec.specs.Name.{is_name};
ghost use Rattle.chain_spec.specs.ChainSet.{is_among};
ghost use Rattle.chain_spec.specs.ChainText as texts;
ghost use Rattle.chain_spec.specs.Fields as spec;
ghost use Rattle.brick_base.specs.PrefixView.{prefix_view};
ghost use Rattle.chain_text.specs.Gives.{Gives};
ghost use Rattle.chain_text.specs.Written.{any_prefix_view};

use crate::addresses::{address_of, any_prefix_of, mac_of, prefix_of};
use crate::any_prefix::AnyPrefix;
use crate::fault::{ChainFault, range};
use crate::fields::{is_among, text_in};
use crate::names;
use brick_base::{Name, Prefix};
use std::alloc::Global;
use toml::Value;

/// The address that a key's value writes: else Range.
#[tactic(auto, unfolding(chain_spec::specs::Fields::written_in))]
pub fn address_in(alloc: Global, place: u32, key: &str, value: &Value) -> Result<u32, ChainFault>
    ensures { Gives (λ a. a) result (spec.written_in texts.address_of place key.now (view value.now)) }
{
    let text = text_in(alloc, place, key, value)?;
    match address_of(alloc, text)? {
        Some(address) => Ok(address),
        None => Err(range(alloc, place, key)),
    }
}

/// The Ethernet address that a key's value writes: else Range.
#[tactic(auto, unfolding(chain_spec::specs::Fields::written_in))]
pub fn mac_in(alloc: Global, place: u32, key: &str, value: &Value) -> Result<[u8; 6], ChainFault>
    ensures { Gives (λ m. m) result (spec.written_in texts.mac_of place key.now (view value.now)) }
{
    let text = text_in(alloc, place, key, value)?;
    match mac_of(alloc, text)? {
        Some(mac) => Ok(mac),
        None => Err(range(alloc, place, key)),
    }
}

/// The prefix that a key's value writes: else Range, also for one with a bit past the prefix.
#[tactic(auto, unfolding(chain_spec::specs::Fields::written_in))]
pub fn prefix_in(alloc: Global, place: u32, key: &str, value: &Value) -> Result<Prefix, ChainFault>
    ensures { Gives prefix_view result (spec.written_in texts.prefix_of place key.now (view value.now)) }
{
    let text = text_in(alloc, place, key, value)?;
    match prefix_of(alloc, text)? {
        Some(prefix) => Ok(prefix),
        None => Err(range(alloc, place, key)),
    }
}

/// The prefix that a key's value writes, whatever its bits past the prefix are: else Range.
#[tactic(auto, unfolding(chain_spec::specs::Fields::written_in))]
pub fn any_prefix_in(
    alloc: Global,
    place: u32,
    key: &str,
    value: &Value,
) -> Result<AnyPrefix, ChainFault>
    ensures { Gives any_prefix_view result (spec.written_in texts.any_prefix_of place key.now (view value.now)) }
{
    let text = text_in(alloc, place, key, value)?;
    match any_prefix_of(alloc, text)? {
        Some(prefix) => Ok(prefix),
        None => Err(range(alloc, place, key)),
    }
}

/// A prefix, and none where there is no value. A text that is none, also one with a bit past the prefix, gives Range.
#[tactic(auto, unfolding(chain_spec::specs::Fields::prefix_at))]
pub fn prefix_at(
    alloc: Global,
    place: u32,
    key: &str,
    value: Option<&Value>,
) -> Result<Option<Prefix>, ChainFault>
    ensures { Gives (option_map prefix_view) result
        (spec.prefix_at place key.now (option_map (λ v. view v.now) value.entry)) }
{
    match value {
        None => Ok(None),
        Some(value) => {
            let prefix = prefix_in(alloc, place, key, value)?;
            Ok(Some(prefix))
        }
    }
}

/// The text of low to high bytes that a key's value is: else Range.
#[tactic(auto, unfolding(chain_spec::specs::Fields::bytes_in))]
pub fn bytes_in<'a>(
    alloc: Global,
    low: usize,
    high: usize,
    place: u32,
    key: &str,
    value: &'a Value,
) -> Result<&'a str, ChainFault>
    ensures value { Gives (λ t. t.now) result (spec.bytes_in low high place key.now (view value.now)) }
    ensures bounds { IfOk result (λ t. (low ≤ length t.now) × (length t.now ≤ high)) }
{
    let text = text_in(alloc, place, key, value)?;
    if low <= text.len() && text.len() <= high {
        Ok(text)
    } else {
        Err(range(alloc, place, key))
    }
}

/// A truth value, which is false where there is no value: else Range.
pub fn truth_or_false(
    alloc: Global,
    place: u32,
    key: &str,
    value: Option<&Value>,
) -> Result<bool, ChainFault>
    ensures { Gives (λ b. b) result (spec.truth_or_false place key.now (option_map (λ v. view v.now) value.entry)) }
{
    let Some(value) = value else {
        return Ok(false);
    };
    match value.as_bool() {
        Some(truth) => Ok(truth),
        None => Err(range(alloc, place, key)),
    }
}

/// A name that is not among the earlier ones: else Range where it is no text, and Name where it is another text.
#[tactic(auto, unfolding(chain_spec::specs::Fields::name_in))]
pub fn name_in(
    alloc: Global,
    place: u32,
    key: &str,
    earlier: &[&str],
    value: &Value,
) -> Result<Name, ChainFault>
    ensures value { Gives (λ n. n) result (spec.name_in place key.now (map (λ x. x.now) earlier.now) (view value.now)) }
    ensures named { IfOk result (λ n. IsTrue (is_name n)) }
    ensures fresh { IfOk result (λ n. is_among n (map (λ x. x.now) earlier.now) ≡ false) }
{
    let text = text_in(alloc, place, key, value)?;
    if !names::is_name(text) || is_among(text, earlier) {
        return Err(ChainFault::Name { place });
    }
    let name = Name::new(alloc, text)?;
    Ok(name)
}
