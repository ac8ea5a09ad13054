ghost use Rattle.std.specs.Prelude.{◌≡◌, ◌≤◌, None};
ghost use Rattle.std.proofs.Common.{rules};
ghost use Rattle.odometer.specs.Meaning.{Takes};
ghost use Rattle.odometer.specs.TelegramWay.{telegram_way};
ghost use Rattle.odometer.specs.Way.{way_most};

use crate::{Fault, Odometer, Place, Way};

// The first place that was read and the last one.
#[derive(Clone, Copy, Debug)]
struct Places {
    first: Place,
    last: Place,
    ghost rising: { first.decimetres ≤ last.decimetres },
    ghost in_range: { telegram_way first.decimetres last.decimetres ≤ way_most },
}

impl Places {
    ghost use Rattle.odometer.specs.Telegram.{Follows, between};

    fn starting_at(place: Place) -> Places
        ensures { between result ≡ record { first = place; last = place } }
    {
        Places {
            first: place,
            last: place,
        }
    }

    fn way(self) -> Way
        ensures { result.millimetres ≡ telegram_way self.first.decimetres self.last.decimetres }
    {
        Way {
            millimetres: u64::from(self.last.decimetres - self.first.decimetres) * 100,
        }
    }

    // The places once another one has been read, or why it is not taken.
    fn then(self, place: Place) -> Result<Places, Fault>
        ensures { Follows self place result }
    {
        if place < self.last {
            return Err(Fault::Backwards);
        }
        let places = Places {
            first: self.first,
            last: place,
        };
        places.way().reached_from(self.way())?;
        Ok(places)
    }
}

// Reads places on the line out of telegrams. It counts from the first place.
#[derive(Debug, Drop)]
pub struct Telegram {
    // nothing before the first good reading
    places: Option<Places>,
}

impl Telegram {
    ghost use Rattle.odometer.specs.Telegram.{ends};

    // A telegram odometer that has read no place yet.
    pub fn new() -> Telegram
        ensures { ends result ≡ None }
    {
        Telegram { places: None }
    }
}

impl Odometer for Telegram {
    ghost use Rattle.odometer.specs.Telegram.{Remembers, telegram_meaning};

    type Reading = Place;

    ghost meaning = { telegram_meaning };

    ghost bounded = { Prim.search rules };

    ghost moves = { Prim.search rules };

    fn take(&mut self, reading: Place) -> Result<Way, Fault>
        ensures taken { Takes telegram_meaning self.old reading result self.new }
        ensures remembers_its_place { Remembers self.old reading result self.new }
    {
        let places = match self.places {
            None => Places::starting_at(reading),
            Some(places) => places.then(reading)?,
        };
        self.places = Some(places);
        Ok(places.way())
    }

    fn way(&self) -> Way {
        self.places.map_or(Way { millimetres: 0 }, Places::way)
    }
}
