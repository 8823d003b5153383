// The version, in one place: the archive tells it, and the programs print it.
#![tactic(auto)]

ghost use Rattle.std.specs.Prelude.{◌≡◌, ◌+◌, ◌*◌};

// 10,000 times the major number, 100 times the minor number, and the patch: 1.0.0.
pub fn number() -> u64
    ensures { result ≡ 1 * 10000 + 0 * 100 + 0 }
{
    10_000
}
