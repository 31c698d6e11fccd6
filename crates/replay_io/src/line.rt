// The lists of a line, each as how many cells it has, and those.
ghost use Rattle.std.specs.Prelude.{◌≡◌, ◌∷◌, ◌++◌, ◌↔◌, length, IfSome, IsSome};
ghost use Rattle.replay_io.specs.Line.{HasList};

// as many cells as a list may have
pub const LIST_CELLS: usize = 4168;

// The first list, if it is there and not too long. Behind it is what is left.
pub fn list<'a>(rest: &mut &'a [usize]) -> Option<&'a [usize]>
    ensures cut { IfSome result (λ list. rest.old.now ≡ length list.now ∷ list.now ++ rest.new.now) }
    ensures variant { IsSome result ↔ HasList rest.old.now }
{
    let count = *rest.split_off_first()?;
    if count > LIST_CELLS {
        return None;
    }
    rest.split_off(..count)
}
