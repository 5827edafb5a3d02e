//! Who is shown what a writer does.
ghost use Rattle.std.specs.Prelude.{◌≡◌, ◌++◌, ◌∷◌, [], List};
ghost use Rattle.connection.specs.Watch.{Notice, Taken, Written, GivenUp};

use session::{Fault, Item};

/// Who is shown what a writer does.
pub trait Watch {
    /// What it was told so far.
    ghost told: { Self → List Notice };

    /// The writer took an item. Nothing of it is written yet.
    fn takes(&mut self, item: &Item)
        ensures { told self.new ≡ told self.old ++ Taken item.now ∷ [] };

    /// The frame of the item is handed to the device, or is among less than 65,536 octets that the writer holds back.
    fn writes(&mut self, item: &Item)
        ensures { told self.new ≡ told self.old ++ Written item.now ∷ [] };

    /// The writer gives up, as it can't make the frame of the item, by this fault. Nothing of it is written.
    fn gives_up(&mut self, item: &Item, fault: Fault)
        ensures { told self.new ≡ told self.old ++ GivenUp item.now fault ∷ [] };

    /// The writer has ended. So many octets were handed to the device.
    fn ends(&mut self, _octets: u64)
        ensures { told self.new ≡ told self.old }
    {}
}
