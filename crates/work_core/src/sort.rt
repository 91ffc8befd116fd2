ghost use Rattle.std.specs.Prelude.{◌≡◌, OnOk, map};
ghost use Rattle.brick_spec.specs.GroupOutput.{in_key_order};
ghost use Rattle.pcap_io.specs.View.{item_view};

use brick_base::NoMemory;
use pcap_io::Item;

/// Puts the list in the order of its keys. Items of one key stay as they stand.
pub fn sort_items(list: &mut Vec<Item>) -> Result<(), NoMemory>
    ensures { OnOk result (map item_view list.new.items ≡ in_key_order (map item_view list.old.items)) }
{
    group_merge::sort_items(list)?;
    Ok(())
}
