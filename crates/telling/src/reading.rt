// The reading as a program in another language passes it.
ghost use Rattle.std.specs.Prelude.{◌≡◌};
ghost use Rattle.telling.specs.Reading.{reading_of};

use outcomes::Reading;

// The reading: nearest where `within` is 0, whatever the radius, else within the radius.
pub fn reading_of(within: u32, radius: u32) -> Reading
    ensures { result ≡ reading_of within radius }
{
    if within == 0 {
        return Reading::Nearest;
    }
    Reading::Within(radius)
}
