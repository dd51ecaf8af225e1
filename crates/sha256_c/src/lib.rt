// SHA-256 under a name that C links: void virpulens_sha256(const uint8_t *message, size_t length, uint8_t out[32]);
// The measurements of bench/ call it, and so can the C of a terminal.
#![tactic(auto)]

ghost use Rattle.std.specs.Prelude.{◌≡◌};
ghost use Rattle.sha256.specs.Digest.{digest};

#[unsafe(no_mangle)]
pub extern "C" fn virpulens_sha256(message: &[u8], out: &mut [u8; 32])
    ensures { out.new ≡ digest message.now }
{
    *out = sha256::digest(message);
}
