// CRC-32 of bytes, bit by bit.
ghost use Rattle.std.specs.Prelude.{◌≡◌};
ghost use Rattle.slate_objects.specs.Checksum.{crc_bit, crc_byte, crc32};

/// The generator polynomial of CRC-32, with its bits in the other order.
const GENERATOR: u32 = 0xedb8_8320;

/// The CRC-32 of bytes, as Ethernet and zip have it; that of `123456789` is `cbf43926`. It takes time linear in them.
#[tactic(auto, unfolding(crate::specs::Checksum::crc32))]
pub fn crc32(bytes: &[u8]) -> u32
    ensures { result ≡ crc32 bytes.now }
{
    let mut crc = u32::MAX;
    for byte in bytes {
        crc = take_byte(crc, *byte);
    }
    crc ^ u32::MAX
}

#[tactic(auto, unfolding(crate::specs::Checksum::crc_byte))]
fn take_byte(crc: u32, byte: u8) -> u32
    ensures { result ≡ crc_byte crc byte }
{
    let four = take_bit(take_bit(take_bit(take_bit(crc ^ u32::from(byte)))));
    take_bit(take_bit(take_bit(take_bit(four))))
}

fn take_bit(crc: u32) -> u32
    ensures { result ≡ crc_bit crc }
{
    if crc % 2 == 1 {
        (crc / 2) ^ GENERATOR
    } else {
        crc / 2
    }
}
