// The version of the archive, for callers outside Rattle.
ghost use Rattle.std.specs.Prelude.{◌≡◌, ◌+◌, ◌*◌};

// 10,000 times the major number, 100 times the minor number, and the patch: 1.0.0.
#[unsafe(no_mangle)]
pub extern "C" fn yadvorkhul_version() -> u64
    ensures { result ≡ 1 * 10000 + 0 * 100 + 0 }
{
    version::number()
}
