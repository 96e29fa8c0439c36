//! Why a text of objects is refused.

ghost use Rattle.std.specs.Prelude.{◌≡◌};
ghost use Rattle.apf_objects.specs.Faults.{object_fault_number, place_of, key_of};

use crate::key::ObjectKey;
use thiserror::Error;

/// Where a fault is. Each number counts from 0.
#[derive(Clone, Copy, Debug, PartialEq, Eq)]
pub struct Place {
    /// The object, among the items of the list; 0 where the text is one object.
    pub object: usize,
    /// The rule of a schema, and 0 outside of rules.
    pub rule: usize,
    /// The subject, resource rule or non-resource rule of the rule, and 0 outside of these.
    pub member: usize,
}

/// Why a text of objects was refused: the first fault.
///
/// The objects are judged from the first to the last, each by its keys in the order of `ObjectKey`. A name that came
/// before and one level too many are judged once the object itself has no fault.
#[derive(Clone, Copy, Debug, PartialEq, Eq, Error)]
pub enum ObjectFault {
    /// 1: the bytes are no JSON text in UTF-8.
    #[error("not JSON")]
    NotJson,
    /// 2: the value is no object whose `kind` is that of a list or of an object that is read.
    #[error("no objects")]
    NoObjects,
    /// 3: a list's `items` is absent, or is no array.
    #[error("bad items")]
    BadItems,
    /// 4: the list has more than 1,000 items.
    #[error("too many objects")]
    TooMany,
    /// 5: the item is no object.
    #[error("not an object")]
    NotObject(Place),
    /// 6: a key that must be there is absent.
    #[error("missing")]
    Missing(Place, ObjectKey),
    /// 7: what stands at the key is not what may stand there.
    #[error("bad value")]
    BadValue(Place, ObjectKey),
    /// 8: an earlier object of this kind has the name.
    #[error("name twice")]
    Repeated(Place),
    /// 9: the 65th level.
    #[error("too many levels")]
    TooManyLevels(Place),
    /// 10: memory was refused.
    #[error("out of memory")]
    NoMemory,
}

impl ObjectFault {
    /// The fault's number, 1 to 10.
    pub fn number(&self) -> u8
        ensures { result ≡ object_fault_number self.now }
    {
        match self {
            ObjectFault::NotJson => 1,
            ObjectFault::NoObjects => 2,
            ObjectFault::BadItems => 3,
            ObjectFault::TooMany => 4,
            ObjectFault::NotObject(_) => 5,
            ObjectFault::Missing(_, _) => 6,
            ObjectFault::BadValue(_, _) => 7,
            ObjectFault::Repeated(_) => 8,
            ObjectFault::TooManyLevels(_) => 9,
            ObjectFault::NoMemory => 10,
        }
    }

    /// The place of the fault. A fault of the whole text has none.
    pub fn place(&self) -> Option<Place>
        ensures { result ≡ place_of self.now }
    {
        match *self {
            ObjectFault::NotObject(place)
            | ObjectFault::Missing(place, _)
            | ObjectFault::BadValue(place, _)
            | ObjectFault::Repeated(place)
            | ObjectFault::TooManyLevels(place) => Some(place),
            ObjectFault::NotJson
            | ObjectFault::NoObjects
            | ObjectFault::BadItems
            | ObjectFault::TooMany
            | ObjectFault::NoMemory => None,
        }
    }

    /// The key of the fault, where it is one of a key.
    pub fn key(&self) -> Option<ObjectKey>
        ensures { result ≡ key_of self.now }
    {
        match *self {
            ObjectFault::Missing(_, key) | ObjectFault::BadValue(_, key) => Some(key),
            ObjectFault::Repeated(_) => Some(ObjectKey::Name),
            ObjectFault::NotJson
            | ObjectFault::NoObjects
            | ObjectFault::BadItems
            | ObjectFault::TooMany
            | ObjectFault::NotObject(_)
            | ObjectFault::TooManyLevels(_)
            | ObjectFault::NoMemory => None,
        }
    }
}
