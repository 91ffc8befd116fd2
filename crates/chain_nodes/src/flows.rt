ghost use Rattle.std.specs.Prelude.{◌≡◌, ℕ, nat_eq, ◌||◌, false, map, OnOk};
ghost use Rattle.std.specs.List.{slice_index_or};
ghost use Rattle.brick_base.specs.Flow.{flow_of};
ghost use Rattle.flow_spec.specs.Answer.{with_flow};
ghost use Rattle.chain_nodes.specs.Flows.{AreSeen, flows_in};

use brick_base::{Class, NoMemory};

/// The flows of which packets came, each once, in the order in which they came first.
#[derive(Debug, Drop)]
pub struct Flows {
    /// Whether the flow of each number is there; those behind the last are not.
    pub seen: Vec<bool>,
    /// A class of each.
    pub list: Vec<Class>,
}

/// Whether the flow of this number is there.
fn is_seen(seen: &[bool], number: u32) -> bool
    ensures { result ≡ slice_index_or seen.now number false }
{
    match seen.get(number as usize) {
        Some(there) => *there,
        None => false,
    }
}

/// Notes that the flow of this number is there.
fn see(seen: &mut Vec<bool>, number: u32) -> Result<(), NoMemory>
    ensures { OnOk result ((q : ℕ)
        → slice_index_or seen.new.items q false ≡ nat_eq q number || slice_index_or seen.old.items q false) }
{
    let at = number as usize;
    if at >= seen.len() {
        seen.resize(at + 1, false)?;
    }
    seen[at] = true;
    Ok(())
}

impl Flows {
    /// Notes the flow of a packet.
    pub fn note(&mut self, class: &Class) -> Result<(), NoMemory>
        requires { AreSeen self.old }
        ensures seen { OnOk result (AreSeen self.new) }
        ensures list { OnOk result (flows_in self.new ≡ with_flow (flows_in self.old) (flow_of class.now)) }
    {
        if is_seen(&self.seen, class.flow) {
            return Ok(());
        }
        self.list.push(*class)?;
        see(&mut self.seen, class.flow)?;
        Ok(())
    }
}
