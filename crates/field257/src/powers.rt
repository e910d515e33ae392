// Powers of 3 modulo 257: the locators of the columns, and the weights of the check sums.
ghost use Rattle.std.specs.Prelude.{◌≡◌, ◌%◌, get_or};
ghost use Rattle.field257.specs.Table.{table};
ghost use Rattle.field257.specs.Powers.{power_of3};

// Entry 0 is 1; each other entry is 3 times the one before it, modulo 257.
const POWERS: [u16; 256] = [
    1, 3, 9, 27, 81, 243, 215, 131, 136, 151, 196, 74, 222, 152, 199, 83, 249, 233, 185, 41, 123,
    112, 79, 237, 197, 77, 231, 179, 23, 69, 207, 107, 64, 192, 62, 186, 44, 132, 139, 160, 223,
    155, 208, 110, 73, 219, 143, 172, 2, 6, 18, 54, 162, 229, 173, 5, 15, 45, 135, 148, 187, 47,
    141, 166, 241, 209, 113, 82, 246, 224, 158, 217, 137, 154, 205, 101, 46, 138, 157, 214, 128,
    127, 124, 115, 88, 7, 21, 63, 189, 53, 159, 220, 146, 181, 29, 87, 4, 12, 36, 108, 67, 201, 89,
    10, 30, 90, 13, 39, 117, 94, 25, 75, 225, 161, 226, 164, 235, 191, 59, 177, 17, 51, 153, 202,
    92, 19, 57, 171, 256, 254, 248, 230, 176, 14, 42, 126, 121, 106, 61, 183, 35, 105, 58, 174, 8,
    24, 72, 216, 134, 145, 178, 20, 60, 180, 26, 78, 234, 188, 50, 150, 193, 65, 195, 71, 213, 125,
    118, 97, 34, 102, 49, 147, 184, 38, 114, 85, 255, 251, 239, 203, 95, 28, 84, 252, 242, 212,
    122, 109, 70, 210, 116, 91, 16, 48, 144, 175, 11, 33, 99, 40, 120, 103, 52, 156, 211, 119, 100,
    43, 129, 130, 133, 142, 169, 250, 236, 194, 68, 204, 98, 37, 111, 76, 228, 170, 253, 245, 221,
    149, 190, 56, 168, 247, 227, 167, 244, 218, 140, 163, 232, 182, 32, 96, 31, 93, 22, 66, 198,
    80, 240, 206, 104, 55, 165, 238, 200, 86,
];

// The table, to be lent to whatever looks up a power.
pub fn powers() -> [u16; 256]
    ensures { result ≡ table }
{
    POWERS
}

// The entry of what is lent in which the table has 3 to the power e modulo 257, for every e: the powers come round after 256. For loops, to which the table is
// lent, since it is stored anew wherever it is named.
pub fn entry(powers: &[u16; 256], e: u32) -> u16
    ensures power { powers.now ≡ table → result ≡ power_of3 e }
    ensures place { result ≡ get_or powers.now (e % 256) 0 }
{
    powers[(e % 256) as usize]
}

// 3 to the power e modulo 257, for every e.
pub fn power_of_3(e: u32) -> u16
    ensures { result ≡ power_of3 e }
{
    let powers = powers();
    entry(&powers, e)
}
