//! What each worker is to do: a script for each, at its place.
ghost use Rattle.std.specs.Prelude.{◌≡◌};
ghost use Rattle.beside_collector.specs.Scripts.{script_of};

/// The script of this place; an empty one past the last.
pub fn script_at<T>(scripts: &[Vec<T>], place: u32) -> &[T]
    ensures script { result.now ≡ script_of scripts.now place }
{
    match scripts.get(place as usize) {
        Some(script) => script.as_slice(),
        None => &[],
    }
}
