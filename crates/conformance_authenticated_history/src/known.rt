//! Roots and audit paths. They were computed in Python with hashlib, by a program that follows the description of the byte formats.

/// The root of a bitmap with no bits, in chunks of 4 bytes.
pub const NO_BITS: [u8; 32] = [
    12, 242, 66, 112, 254, 195, 176, 79, 211, 113, 98, 7, 98, 107, 151, 123, 138, 97, 127, 98, 85,
    0, 110, 97, 133, 188, 246, 87, 218, 91, 13, 239,
];

/// The root of a bitmap that has one chunk, of zeros.
pub const ONE_CHUNK: [u8; 32] = [
    228, 66, 76, 237, 213, 72, 68, 252, 220, 39, 91, 229, 75, 133, 84, 62, 152, 43, 98, 30, 111,
    227, 27, 126, 56, 181, 31, 217, 28, 144, 165, 9,
];

/// The root of a bitmap that has two chunks, each of which has its index as every byte.
pub const TWO_CHUNKS: [u8; 32] = [
    164, 155, 37, 232, 102, 198, 203, 4, 102, 65, 189, 49, 173, 99, 164, 24, 86, 87, 11, 218, 110,
    21, 222, 42, 219, 169, 144, 164, 3, 202, 241, 197,
];

/// The audit path of the first of these chunks.
pub const TWO_CHUNKS_PATH_0_0: [u8; 32] = [
    197, 250, 122, 79, 5, 94, 207, 179, 16, 207, 240, 120, 133, 42, 8, 200, 50, 190, 154, 196, 196,
    211, 14, 203, 115, 228, 181, 86, 48, 255, 241, 159,
];

/// The root of a bitmap that has three chunks, each of which has its index as every byte.
pub const VERSION_1: [u8; 32] = [
    172, 119, 77, 83, 21, 218, 69, 172, 33, 13, 55, 197, 234, 240, 236, 27, 143, 155, 38, 131, 145,
    119, 105, 35, 59, 253, 111, 200, 253, 54, 112, 141,
];

/// The root of this bitmap with a set bit more.
pub const VERSION_2: [u8; 32] = [
    22, 10, 102, 206, 105, 5, 8, 234, 13, 223, 218, 186, 61, 69, 230, 149, 138, 148, 147, 156, 217,
    204, 244, 162, 147, 161, 45, 130, 131, 105, 206, 55,
];

/// Digest 0 of the audit path of chunk 0 of that one.
pub const VERSION_2_PATH_0_0: [u8; 32] = [
    197, 250, 122, 79, 5, 94, 207, 179, 16, 207, 240, 120, 133, 42, 8, 200, 50, 190, 154, 196, 196,
    211, 14, 203, 115, 228, 181, 86, 48, 255, 241, 159,
];

/// Digest 1 of the audit path of chunk 0 of that one.
pub const VERSION_2_PATH_0_1: [u8; 32] = [
    195, 166, 157, 209, 254, 251, 71, 103, 27, 45, 194, 177, 3, 178, 15, 201, 176, 227, 251, 181,
    7, 72, 215, 239, 41, 163, 152, 98, 138, 147, 80, 223,
];

/// The root of the bitmap with three chunks after its last bit is removed and its first chunk is pruned.
pub const VERSION_5: [u8; 32] = [
    188, 239, 136, 161, 163, 193, 99, 203, 153, 147, 164, 213, 187, 83, 162, 216, 165, 151, 122,
    235, 122, 15, 41, 22, 100, 81, 59, 216, 68, 204, 109, 79,
];

/// The audit path of chunk 2 of that one.
pub const VERSION_5_PATH_2_0: [u8; 32] = [
    13, 116, 169, 86, 194, 55, 126, 111, 147, 131, 41, 137, 15, 247, 87, 103, 47, 104, 121, 161,
    183, 246, 4, 56, 22, 20, 157, 186, 131, 47, 158, 174,
];
