//! Values of Python's `hashlib`, by the definitions of RFC 9162, section 2.1.

use crate::sha::Sha;
use authenticated_bitmap::tree::leaf_digest;

/// The digests of the eight leaves that implementations of certificate transparency test with.
pub fn eight_digests() -> [[u8; 32]; 8] {
    [
        leaf_digest(&Sha, b""),
        leaf_digest(&Sha, b"\x00"),
        leaf_digest(&Sha, b"\x10"),
        leaf_digest(&Sha, b"\x20\x21"),
        leaf_digest(&Sha, b"\x30\x31"),
        leaf_digest(&Sha, b"\x40\x41\x42\x43"),
        leaf_digest(&Sha, b"\x50\x51\x52\x53\x54\x55\x56\x57"),
        leaf_digest(
            &Sha,
            b"\x60\x61\x62\x63\x64\x65\x66\x67\x68\x69\x6a\x6b\x6c\x6d\x6e\x6f",
        ),
    ]
}

/// The digest of the tree of no leaves.
pub const NOTHING: [u8; 32] = [
    227, 176, 196, 66, 152, 252, 28, 20, 154, 251, 244, 200, 153, 111, 185, 36, 39, 174, 65, 228,
    100, 155, 147, 76, 164, 149, 153, 27, 120, 82, 184, 85,
];

/// The digest of the tree of the first of the eight leaves.
pub const TREE_1: [u8; 32] = [
    110, 52, 11, 156, 255, 179, 122, 152, 156, 165, 68, 230, 187, 120, 10, 44, 120, 144, 29, 63,
    179, 55, 56, 118, 133, 17, 163, 6, 23, 175, 160, 29,
];

/// The digest of the tree of the first 2 of the eight leaves.
pub const TREE_2: [u8; 32] = [
    250, 197, 66, 3, 231, 204, 105, 108, 240, 223, 203, 66, 201, 42, 29, 157, 186, 247, 10, 217,
    230, 33, 244, 189, 141, 152, 102, 47, 0, 227, 193, 37,
];

/// The digest of the tree of the first 3 of the eight leaves.
pub const TREE_3: [u8; 32] = [
    174, 182, 188, 254, 39, 75, 112, 161, 79, 176, 103, 165, 229, 87, 130, 100, 219, 15, 169, 181,
    26, 245, 224, 186, 21, 145, 88, 243, 41, 224, 110, 119,
];

/// The digest of the tree of the first 4 of the eight leaves.
pub const TREE_4: [u8; 32] = [
    211, 126, 228, 24, 151, 109, 217, 87, 83, 193, 199, 56, 98, 185, 57, 143, 162, 162, 207, 155,
    79, 240, 253, 254, 139, 48, 205, 149, 32, 150, 20, 183,
];

/// The digest of the tree of the first 5 of the eight leaves.
pub const TREE_5: [u8; 32] = [
    78, 59, 187, 31, 123, 71, 141, 207, 231, 31, 182, 49, 99, 21, 25, 163, 188, 161, 44, 154, 239,
    202, 22, 18, 191, 206, 76, 19, 168, 98, 100, 212,
];

/// The digest of the tree of the first 6 of the eight leaves.
pub const TREE_6: [u8; 32] = [
    118, 230, 125, 173, 188, 223, 30, 16, 225, 183, 77, 220, 96, 138, 189, 47, 152, 223, 177, 111,
    188, 231, 82, 119, 181, 35, 42, 18, 127, 32, 135, 239,
];

/// The digest of the tree of the first 7 of the eight leaves.
pub const TREE_7: [u8; 32] = [
    221, 184, 155, 228, 3, 128, 158, 50, 87, 80, 211, 210, 99, 205, 120, 146, 156, 41, 66, 183,
    148, 42, 52, 183, 126, 18, 44, 149, 148, 167, 76, 140,
];

/// The digest of the tree of the first 8 of the eight leaves.
pub const TREE_8: [u8; 32] = [
    93, 201, 218, 121, 167, 6, 89, 169, 173, 85, 156, 183, 1, 222, 217, 162, 171, 157, 130, 58,
    173, 47, 73, 96, 207, 227, 112, 239, 244, 96, 67, 40,
];

/// The digest of the tree of the first 8 of the eight leaves, with the leaf of the bytes `other` in the place of leaf 5.
pub const TREE_8_REPLACED_5: [u8; 32] = [
    175, 145, 46, 141, 9, 47, 223, 91, 229, 40, 41, 241, 209, 78, 151, 240, 52, 167, 162, 110, 89,
    126, 215, 101, 219, 50, 107, 205, 30, 194, 123, 5,
];

/// The digest of the tree of the first 7 of the eight leaves, with the leaf of the bytes `other` in the place of leaf 6.
pub const TREE_7_REPLACED_6: [u8; 32] = [
    226, 218, 230, 165, 119, 134, 74, 200, 45, 204, 119, 37, 75, 248, 98, 162, 34, 63, 120, 150,
    246, 215, 207, 14, 172, 114, 184, 47, 101, 90, 92, 241,
];

/// The digest of the last four of the eight leaves.
pub const LAST_FOUR: [u8; 32] = [
    107, 71, 170, 242, 158, 227, 194, 175, 154, 248, 137, 188, 31, 185, 37, 77, 171, 211, 17, 119,
    241, 98, 50, 221, 106, 171, 3, 92, 163, 155, 246, 228,
];

/// Digest 0 of the audit path of leaf 5 of 8.
pub const PATH_5_OF_8_0: [u8; 32] = [
    188, 26, 6, 67, 177, 46, 77, 45, 124, 119, 145, 143, 68, 224, 244, 247, 154, 131, 139, 108,
    249, 236, 91, 92, 40, 62, 31, 77, 136, 89, 158, 107,
];

/// Digest 1 of the audit path of leaf 5 of 8.
pub const PATH_5_OF_8_1: [u8; 32] = [
    202, 133, 78, 161, 40, 237, 5, 11, 65, 179, 95, 252, 27, 135, 184, 235, 43, 222, 70, 30, 158,
    59, 85, 150, 236, 230, 185, 213, 151, 90, 10, 224,
];

/// Digest 2 of the audit path of leaf 5 of 8.
pub const PATH_5_OF_8_2: [u8; 32] = [
    211, 126, 228, 24, 151, 109, 217, 87, 83, 193, 199, 56, 98, 185, 57, 143, 162, 162, 207, 155,
    79, 240, 253, 254, 139, 48, 205, 149, 32, 150, 20, 183,
];

/// Digest 0 of the audit path of leaf 6 of 7.
pub const PATH_6_OF_7_0: [u8; 32] = [
    14, 188, 93, 52, 55, 251, 226, 219, 21, 139, 159, 18, 106, 29, 17, 142, 48, 129, 129, 3, 29,
    10, 148, 159, 141, 237, 237, 235, 197, 88, 239, 106,
];

/// Digest 1 of the audit path of leaf 6 of 7.
pub const PATH_6_OF_7_1: [u8; 32] = [
    211, 126, 228, 24, 151, 109, 217, 87, 83, 193, 199, 56, 98, 185, 57, 143, 162, 162, 207, 155,
    79, 240, 253, 254, 139, 48, 205, 149, 32, 150, 20, 183,
];

/// Sibling 0 of the leaves 2 to 6 of 8.
pub const RANGE_2_TO_7_OF_8_0: [u8; 32] = [
    250, 197, 66, 3, 231, 204, 105, 108, 240, 223, 203, 66, 201, 42, 29, 157, 186, 247, 10, 217,
    230, 33, 244, 189, 141, 152, 102, 47, 0, 227, 193, 37,
];

/// Sibling 1 of the leaves 2 to 6 of 8.
pub const RANGE_2_TO_7_OF_8_1: [u8; 32] = [
    70, 246, 255, 173, 211, 208, 106, 9, 255, 60, 88, 96, 210, 117, 92, 139, 152, 25, 219, 125,
    244, 66, 81, 120, 140, 125, 142, 49, 128, 222, 142, 177,
];

/// The digest of the tree of five chunks of 4 bytes, each of which has its index as every byte.
pub const FIVE_CHUNKS: [u8; 32] = [
    109, 223, 25, 215, 153, 41, 128, 145, 73, 64, 118, 76, 232, 96, 246, 136, 178, 15, 83, 228, 84,
    252, 49, 190, 56, 84, 154, 42, 195, 86, 65, 54,
];

/// Digest 0 of the audit path of chunk 2 of these.
pub const PATH_CHUNK_2_0: [u8; 32] = [
    225, 202, 143, 56, 67, 36, 112, 197, 215, 207, 31, 155, 77, 210, 253, 62, 16, 2, 24, 120, 76,
    156, 202, 251, 41, 69, 124, 106, 187, 113, 8, 13,
];

/// Digest 1 of the audit path of chunk 2 of these.
pub const PATH_CHUNK_2_1: [u8; 32] = [
    13, 116, 169, 86, 194, 55, 126, 111, 147, 131, 41, 137, 15, 247, 87, 103, 47, 104, 121, 161,
    183, 246, 4, 56, 22, 20, 157, 186, 131, 47, 158, 174,
];

/// Digest 2 of the audit path of chunk 2 of these.
pub const PATH_CHUNK_2_2: [u8; 32] = [
    207, 165, 189, 63, 179, 75, 225, 127, 242, 121, 31, 83, 195, 218, 192, 143, 30, 69, 223, 23,
    23, 201, 64, 193, 50, 250, 105, 164, 49, 143, 7, 30,
];

/// The root of the bitmap of 150 bits that has these chunks, 0 of them pruned.
pub const ROOT_PRUNED_0: [u8; 32] = [
    106, 119, 97, 163, 147, 101, 198, 62, 153, 53, 186, 221, 93, 39, 85, 89, 93, 204, 37, 190, 99,
    11, 166, 169, 149, 109, 131, 103, 179, 120, 219, 230,
];

/// The root of the bitmap of 150 bits that has these chunks, 2 of them pruned.
pub const ROOT_PRUNED_2: [u8; 32] = [
    247, 122, 124, 12, 139, 240, 0, 202, 227, 127, 161, 219, 45, 241, 182, 207, 198, 96, 140, 61,
    37, 63, 35, 142, 177, 79, 19, 120, 13, 158, 106, 2,
];

/// The root of the bitmap of 150 bits that has these chunks, 4 of them pruned.
pub const ROOT_PRUNED_4: [u8; 32] = [
    227, 228, 232, 58, 236, 32, 46, 233, 242, 112, 185, 136, 53, 54, 196, 240, 119, 77, 199, 80,
    53, 217, 37, 180, 103, 171, 159, 133, 105, 105, 54, 182,
];

/// The worked root of the document of byte formats: chunks of one byte, of which the first is
/// pruned.
pub const WORKED_ROOT: [u8; 32] = [
    227, 13, 246, 162, 76, 10, 70, 35, 220, 162, 84, 62, 125, 26, 226, 253, 146, 121, 132, 232, 91,
    226, 182, 119, 26, 3, 126, 217, 236, 88, 85, 145,
];

/// The digest of its chunk 0.
pub const WORKED_0: [u8; 32] = [
    180, 19, 244, 125, 19, 238, 47, 230, 200, 69, 178, 238, 20, 26, 248, 29, 232, 88, 223, 78, 197,
    73, 165, 139, 121, 112, 187, 150, 100, 91, 200, 210,
];

/// The digest of its chunk 2.
pub const WORKED_2: [u8; 32] = [
    59, 43, 124, 110, 226, 94, 47, 40, 166, 35, 94, 39, 62, 175, 19, 245, 4, 189, 68, 80, 36, 20,
    126, 186, 203, 135, 130, 98, 170, 233, 5, 9,
];
