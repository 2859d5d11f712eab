//! Facts by their numbers, and numbers by their facts.

ghost use Rattle.std.specs.Prelude.{◌≡◌, slice_get, IfOk};
ghost use Rattle.std.specs.Option.{option_map};
ghost use Rattle.rules.specs.mark_rules.Facts.Fact.{marked, reflected};
ghost use Rattle.mark_parts.specs.mark_facts.Told.{fact_told};
ghost use Rattle.mark_numbers.specs.Numbers.{universe, number_there, of_home, fact_numbered};
ghost use Rattle.mark_numbers.specs.Starts.{AreNumbers, item_number, type_number, item_in};

use crate::starts::Starts;
use il_base::world_model::World;
use il_base::{Item, NoMemory, TypeId};
use mark_parts::mark_facts::fact::Fact;
use mark_parts::mark_facts::rows::row_of;
use type_tables::member_search::counted::sum;

/// A world, and the numbers at which each kind of fact begins.
#[derive(Clone, Copy)]
pub struct Numbers<'w> {
    world: &'w World,
    starts: Starts,
}

impl<'w> Numbers<'w> {
    /// The numbers of a world's facts.
    pub fn of(world: &'w World) -> Result<Numbers<'w>, NoMemory>
        ensures are { IfOk result AreNumbers }
        ensures world { IfOk result (λ n. n.world.now ≡ world.now) }
    {
        let starts = Starts::of(world.recs.as_slice())?;
        Ok(Numbers { world, starts })
    }

    /// How many numbers there are.
    pub fn universe(&self) -> u32
        requires { AreNumbers self.now }
        ensures { result ≡ universe self.now.world.now.recs }
    {
        self.starts.universe
    }

    /// The number of an item that is there, after so many others.
    fn number_of_item(&self, start: u32, item: Item) -> Result<Option<u32>, NoMemory>
        requires { AreNumbers self.now }
        ensures { IfOk result (λ n. n ≡ item_number self.now.world.now.recs start item) }
    {
        let all = self.world.recs.as_slice();
        match row_of(all, item) {
            Ok(Some(_at)) => {
                let place = self.starts.place_of(all, item)?;
                let number = sum(start, place as usize)?;
                Ok(Some(number))
            }
            Ok(None) => Ok(None),
            Err(error) => Err(error),
        }
    }

    /// The number of a type that is there, after so many others.
    fn number_of_type(&self, start: u32, id: TypeId) -> Result<Option<u32>, NoMemory>
        requires { AreNumbers self.now }
        ensures { IfOk result (λ n. n ≡ type_number self.now.world.now.recs start id) }
    {
        let types = self.starts.shown.saturating_sub(self.starts.instantiated);
        if id.0 < types {
            let number = sum(start, id.0 as usize)?;
            return Ok(Some(number));
        }
        Ok(None)
    }

    /// The number of a fact; None where its item or its type is no row of the world.
    #[tactic(auto, unfolding(crate::specs::Numbers::number_of, crate::specs::Numbers::is_there))]
    pub fn number_of(&self, fact: Fact) -> Result<Option<u32>, NoMemory>
        requires { AreNumbers self.now }
        ensures { IfOk result (λ n. n ≡ number_there self.now.world.now.recs (fact_told fact)) }
    {
        match fact {
            Fact::Marked(item) => self.number_of_item(0, item),
            Fact::Instantiated(id) => self.number_of_type(self.starts.instantiated, id),
            Fact::Shown(id) => self.number_of_type(self.starts.shown, id),
            Fact::Reflected(item) => self.number_of_item(self.starts.reflected, item),
        }
    }

    /// The item in a place among all.
    fn item_at(&self, place: u32) -> Option<Item>
        ensures { result ≡ item_in self.now.world.now place }
    {
        match self.world.homes.get(place as usize) {
            Some(home) => Some(home.item),
            None => None,
        }
    }

    /// The fact with a number; None where no fact has it.
    #[tactic(auto, unfolding(crate::specs::Numbers::fact_numbered))]
    pub fn fact_at(&self, number: u32) -> Option<Fact>
        requires { AreNumbers self.now }
        ensures { option_map fact_told result ≡ fact_numbered self.now.world.now number }
    {
        let starts = &self.starts;
        if number < starts.instantiated {
            return self.marked_at(number);
        }
        if number < starts.shown {
            return Some(Fact::Instantiated(TypeId(number - starts.instantiated)));
        }
        if number < starts.reflected {
            return Some(Fact::Shown(TypeId(number - starts.shown)));
        }
        self.reflected_at(number - starts.reflected)
    }

    fn marked_at(&self, place: u32) -> Option<Fact>
        ensures { option_map fact_told result ≡ of_home marked (slice_get self.now.world.now.homes place) }
    {
        match self.item_at(place) {
            Some(item) => Some(Fact::Marked(item)),
            None => None,
        }
    }

    fn reflected_at(&self, place: u32) -> Option<Fact>
        ensures { option_map fact_told result ≡ of_home reflected (slice_get self.now.world.now.homes place) }
    {
        match self.item_at(place) {
            Some(item) => Some(Fact::Reflected(item)),
            None => None,
        }
    }
}
