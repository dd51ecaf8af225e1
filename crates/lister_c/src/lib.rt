// The listing under a name that C links:
// size_t virpulens_listing(const uint8_t *input, size_t length, uint8_t *output, size_t room);
// The measurements of bench/ call it.
#![tactic(auto)]

ghost use Rattle.std.specs.Prelude.{◌≡◌};
ghost use Rattle.lister.specs.Listing.{listed};
ghost use Rattle.lister_c.specs.Counted.{counted};

#[unsafe(no_mangle)]
pub extern "C" fn virpulens_listing(input: &[u8], output: &mut [u8]) -> usize
    ensures { (result ≡ counted (listed input.now output.old).written) × (output.new ≡ (listed input.now output.old).output) }
{
    lister::listing(input, output).unwrap_or(usize::MAX)
}
