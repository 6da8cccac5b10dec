//! How the positions in one end change when a value comes in, is taken out or moves.
ghost use Rattle.std.specs.Prelude.{◌≡◌, ◌+◌, ◌<◌, ◌^◌};
ghost use Rattle.links.specs.Links.{lower, raise};

/// One renumbering of an end's positions.
#[derive(Clone, Copy)]
pub(crate) enum Renumbering {
    /// A value comes in at a position.
    Raise(u32),
    /// The value at a position is taken out.
    Lower(u32),
    /// `Shift(to, from)`: the value at the position `from` moves to the position `to`.
    Shift(u32, u32),
}

impl Renumbering {
    ghost use Rattle.link_store.specs.Rows.{changed_index, CanChange};

    /// The position that the value at position `k` gets by the renumbering. The value that `Lower(k)` takes out has no new position; for it
    /// the result is `k`.
    pub fn changed(self, k: u32) -> u32
        requires { CanChange self k }
        ensures { result ≡ changed_index self k }
    {
        match self {
            Renumbering::Raise(i) => raised(i, k),
            Renumbering::Lower(i) => lowered(i, k),
            Renumbering::Shift(to, from) => if k == from {
                to
            } else {
                raised(to, lowered(from, k))
            },
        }
    }
}

fn raised(i: u32, k: u32) -> u32
    requires { k + 1 < 2 ^ 32 }
    ensures { result ≡ raise i k }
{
    if k < i { k } else { k + 1 }
}

fn lowered(i: u32, k: u32) -> u32
    ensures { result ≡ lower i k }
{
    if i < k { k - 1 } else { k }
}
