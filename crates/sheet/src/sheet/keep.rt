// Taking off the nodes that were entered last.
ghost use Rattle.std.specs.Prelude.{◌≡◌, ◌<◌, vec_capacity};
ghost use Rattle.sheet.specs.Records.{shorter};
ghost use Rattle.sheet.specs.Keep.{kept};
ghost use Rattle.sheet.specs.View.{state};

use crate::node::Record;
use crate::sheet::Sheet;

// Leaves the first n records, each with its pairs with the first n nodes.
fn shorten(records: &mut Vec<Record>, n: usize)
    requires { n < 64 }
    ensures items { records.new.items ≡ shorter n records.old.items }
    ensures capacity { vec_capacity records.new ≡ vec_capacity records.old }
{
    records.truncate(n);
    for record in records.iter_mut() {
        *record = record.within(n);
    }
}

impl Sheet {
    // Takes off every node from number n on, with the pairs that are settled for it.
    pub fn keep(&mut self, n: usize)
        ensures { state self.new ≡ kept n (state self.old) }
    {
        if n < self.records.len() {
            shorten(&mut self.records, n);
        }
    }
}
