//! Open signatures against digests made elsewhere.

use hex::FromHex;
use scheme_core::{OpenScheme, OpenSigner, Signer, Verify};
use std::test::Fail;
use willow_path::{NamespaceKey, UserKey};

#[test]
fn open_signatures(rt: HostRuntime) -> Result<(), Fail> {
    let mut bytes = [0x55; 33];
    bytes[0] = 0;
    let key = UserKey::from_bytes(bytes).ok_or("an open key")?;
    let wanted = <[u8; 32] as FromHex>::from_hex(
        "96dadf50d78399a7a89a96ad3de0d2634f7adad5a302f542d0642195fd031659",
    )?;
    let mut signer = OpenSigner::new(key);
    assert_eq!(rt; signer.left(), 1);
    let signature = signer.sign(rt.alloc(), b"abc")?;
    assert_eq!(rt; signature.as_slice(), wanted.as_slice());
    assert!(rt; OpenScheme.verify_user(&key, b"abc", &signature));
    assert!(rt; !OpenScheme.verify_user(&key, b"abd", &signature));
    assert!(rt; !OpenScheme.verify_user(&key, b"abc", b"abc"));
    bytes[0] = 1;
    let other = UserKey::from_bytes(bytes).ok_or("a key of the other kind")?;
    assert!(rt; !OpenScheme.verify_user(&other, b"abc", &signature));
    Ok(())
}

#[test]
fn communal_by_the_low_bit(rt: HostRuntime) -> Result<(), Fail> {
    for (last, communal) in [(0x4e, true), (0x4f, false), (0, true), (0xff, false)] {
        let mut bytes = [0x4e; 33];
        bytes[0] = 0;
        bytes[32] = last;
        let key = NamespaceKey::from_bytes(bytes).ok_or("a namespace key")?;
        assert_eq!(rt; OpenScheme.is_communal(&key), communal);
    }
    Ok(())
}
