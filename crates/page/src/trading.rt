// Trading: a component of a page gains or loses a quantity.
ghost use Rattle.std.specs.Prelude.{◌≡◌, if◌then◌else◌, Some, None};
ghost use Rattle.page.specs.Limits.{past};
ghost use Rattle.page.specs.Pages.{with_gas, with_held};
ghost use Rattle.page.specs.Trading.{gaining, losing};

use crate::limits::within;
use crate::page::Page;
use records::Component;

impl Page {
    /// The page with another quantity in a component, or none past the limit.
    fn with_held(&self, component: Component, quantity: i64) -> Option<Page>
        ensures { result ≡ (if past quantity then None else Some (with_gas self.now (with_held component self.now.gas quantity))) }
    {
        let held = within(quantity)?;
        let mut page = *self;
        match component {
            Component::Statement => page.gas.statement = held,
            Component::Operating => page.gas.operating = held,
        }
        Some(page)
    }

    /// The page with more in a component, or none past the limit.
    pub fn gaining(&self, component: Component, quantity: u32) -> Option<Page>
        ensures { result ≡ gaining component self.now quantity }
    {
        let held = i64::from(self.held_in(component)) + i64::from(quantity);
        self.with_held(component, held)
    }

    /// The page with less in a component, or none past the limit.
    pub fn losing(&self, component: Component, quantity: u32) -> Option<Page>
        ensures { result ≡ losing component self.now quantity }
    {
        let held = i64::from(self.held_in(component)) - i64::from(quantity);
        self.with_held(component, held)
    }
}
