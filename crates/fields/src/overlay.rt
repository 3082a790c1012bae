// The marked bytes of an image over others.
ghost use Rattle.std.specs.Prelude.{◌≡◌};
ghost use Rattle.fields.specs.Overlay.{overlaid};

// The bytes, under those of the image whose mark is not 0. Past the end of the image or of its marks they stay.
#[tactic(auto, using(crate::proofs::OverlayLaws::overlay_laws))]
pub fn overlay(mut bytes: [u8; 256], image: &[u8], marks: &[u8]) -> [u8; 256]
    ensures { result ≡ overlaid bytes image.now marks.now }
{
    for i in 0..bytes.len().min(image.len()).min(marks.len()) {
        if marks[i] != 0 {
            bytes[i] = image[i];
        }
    }
    bytes
}
