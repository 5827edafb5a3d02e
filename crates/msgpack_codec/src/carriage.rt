//! Whether what was passed over is carried.
ghost use Rattle.std.specs.Prelude.{◌≡◌};
ghost use Rattle.msgpack_codec.specs.Written.{worse as worse_of, doubted as doubted_of};

/// Whether a value is carried, as far as it can be told with no memory.
///
/// Of equal keys the last value stands, and whether a key comes again can't be told without memory
/// of all keys, nor by going over them again in time that grows as the octets do. So each key is
/// compared with the one before it alone. Where all ascend, none comes again.
#[derive(Clone, Copy, Debug, Drop, PartialEq, Eq)]
pub enum Carriage {
    /// All of it is carried, also the values of keys that come again.
    Carried,
    /// What is uncarried in it stands in a dictionary whose keys don't ascend: the key may come
    /// again with another value.
    Unsure,
    /// It is uncarried.
    Uncarried,
}

/// What is told of two members together.
pub(crate) fn worse(one: Carriage, other: Carriage) -> Carriage
    ensures { result ≡ worse_of one other }
{
    match one {
        Carriage::Carried => other,
        Carriage::Unsure => match other {
            Carriage::Carried | Carriage::Unsure => Carriage::Unsure,
            Carriage::Uncarried => Carriage::Uncarried,
        },
        Carriage::Uncarried => Carriage::Uncarried,
    }
}

/// What is told of a dictionary whose keys may come again.
pub(crate) fn doubted(carriage: Carriage) -> Carriage
    ensures { result ≡ doubted_of carriage }
{
    match carriage {
        Carriage::Carried => Carriage::Carried,
        Carriage::Unsure | Carriage::Uncarried => Carriage::Unsure,
    }
}
