ghost use Rattle.std.specs.Prelude.{◌≡◌, ◌≤◌, ℕ};
ghost use Rattle.pr_fence.specs.Keys.{key_of, read_as_hexadecimal};

use md5::{Digest, Md5};
use pr_words::Key;

/// The number whose hexadecimal digits are the four decimal ones of a node.
fn hexadecimal(node: u16) -> u16
    requires { node ≤ 9999 }
    ensures { result ≡ read_as_hexadecimal node }
{
    node / 1000 * 0x1000 + node / 100 % 10 * 0x100 + node / 10 % 10 * 0x10 + node % 10
}

/// The key of a node, 1 to 9999, in the cluster of this name: as one hexadecimal number, the first
/// four digits of the name's MD5, and then the node's four decimal digits. No other node of the
/// cluster has it.
pub fn key_for(cluster: &str, node: u16) -> Key
    requires some { 1 ≤ node }
    requires few { node ≤ 9999 }
    ensures key { result ≡ key_of cluster.now node }
    ensures own { (other : ℕ) → other ≤ 9999 → key_of cluster.now other ≡ result → other ≡ node }
{
    let digest = Md5::digest(cluster.as_bytes());
    let front = u16::from_be_bytes([digest[0], digest[1]]);
    Key(u64::from(front) * 0x1_0000 + u64::from(hexadecimal(node)))
}
