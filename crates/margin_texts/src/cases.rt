// The texts, by what they show.

// A name, and a text: its head, and perhaps a part that follows it so many times.
pub(crate) struct Case {
    pub(crate) name: &'static str,
    pub(crate) head: &'static str,
    pub(crate) repeated: Option<(&'static str, usize)>,
}

pub(crate) static CASES: [Case; 34] = [
    Case {
        name: "the example of two bonds",
        head: "43020200014A000050000118\n53000200ABE0000027100028380A\n53010200A07EB8002710002D6F3F\n420001000003E8\n420102000003E8\n",
        repeated: None,
    },
    Case {
        name: "without the sale",
        head: "43020200014A000050000118\n53000200ABE0000027100028380A\n53010200A07EB8002710002D6F3F\n420001000003E8\n",
        repeated: None,
    },
    Case {
        name: "two classes and a pair",
        head: "4300010027100007D0000000\n430101001F400003E8000000\n5300000007A120002710000F4240\n530101000493E0002710000F4240\n500001001388\n42000100000064\n42010200000064\n",
        repeated: None,
    },
    Case {
        name: "three classes and two pairs",
        head: "43000100C350000000000000\n43010100C350000000000000\n43020100C350000000000000\n530000000000C8002710000F4240\n53010100000064002710000F4240\n53020200000064002710000F4240\n50000100C350\n50000200C350\n42000100000001\n42010200000001\n42020200000001\n",
        repeated: None,
    },
    Case {
        name: "no line at all",
        head: "",
        repeated: None,
    },
    Case {
        name: "rows alone",
        head: "4300010027100007D0000000\n5300000007A120002710000F4240\n",
        repeated: None,
    },
    Case {
        name: "the last line without its feed",
        head: "43020200014A000050000118\n53000200ABE0000027100028380A\n53010200A07EB8002710002D6F3F\n420001000003E8\n420102000003E8",
        repeated: None,
    },
    Case {
        name: "a net that comes back to 0",
        head: "4300010027100007D0000000\n5300000007A120002710000F4240\n42000100000007\n42000200000007\n",
        repeated: None,
    },
    Case {
        name: "2: a booking of nothing",
        head: "4300010027100007D0000000\n5300000007A120002710000F4240\n42000100000000\n",
        repeated: None,
    },
    Case {
        name: "2: a quantity beyond the limit",
        head: "4300010027100007D0000000\n5300000007A120002710000F4240\n4200010BEBC201\n",
        repeated: None,
    },
    Case {
        name: "3: one booking more than a book takes",
        head: "",
        repeated: Some(("42090100000001\n", 4097)),
    },
    Case {
        name: "4: a net beyond the limit",
        head: "4300010027100007D0000000\n5300000007A120002710000F4240\n42000105F5E100\n42000100000001\n",
        repeated: None,
    },
    Case {
        name: "10: an unknown class",
        head: "434001000000000000000000\n",
        repeated: None,
    },
    Case {
        name: "11: a class twice",
        head: "4300010027100007D0000000\n4300010027100007D0000000\n",
        repeated: None,
    },
    Case {
        name: "12: a rate above the whole",
        head: "4307010186A1000000000000\n",
        repeated: None,
    },
    Case {
        name: "13: a security twice",
        head: "4300010027100007D0000000\n5300000007A120002710000F4240\n5300000007A120002710000F4240\n",
        repeated: None,
    },
    Case {
        name: "14: a security of a class without a row",
        head: "4300010027100007D0000000\n53030500000001002710000F4240\n",
        repeated: None,
    },
    Case {
        name: "15: a price of 0",
        head: "4300010027100007D0000000\n53030000000000002710000F4240\n",
        repeated: None,
    },
    Case {
        name: "16: a pair of a class with itself",
        head: "4300010027100007D0000000\n500000000001\n",
        repeated: None,
    },
    Case {
        name: "17: a credit above the rate",
        head: "4300010027100007D0000000\n430101001F400003E8000000\n500001001F41\n",
        repeated: None,
    },
    Case {
        name: "18: one pair more than a sheet takes",
        head: "4300010027100007D0000000\n430101001F400003E8000000\n",
        repeated: Some(("500001001388\n", 33)),
    },
    Case {
        name: "21: a held security without a row",
        head: "4300010027100007D0000000\n42C80200000005\n",
        repeated: None,
    },
    Case {
        name: "22: an amount above the limit",
        head: "4300010027100007D0000000\n530400000F4241002710000F4240\n42040105F5E100\n",
        repeated: None,
    },
    Case {
        name: "30: an empty line",
        head: "4300010027100007D0000000\n\n5300000007A120002710000F4240\n",
        repeated: None,
    },
    Case {
        name: "30: small letters",
        head: "43020200014a000050000118\n",
        repeated: None,
    },
    Case {
        name: "31: an unknown kind",
        head: "41\n",
        repeated: None,
    },
    Case {
        name: "32: a booking too short",
        head: "42000100\n",
        repeated: None,
    },
    Case {
        name: "33: a third side",
        head: "420003000003E8\n",
        repeated: None,
    },
    Case {
        name: "35: a frame of another kind",
        head: "4300010027100007D0000000\n5401000200000000000014F3DB\n",
        repeated: None,
    },
    Case {
        name: "35: a row after a booking",
        head: "4300010027100007D0000000\n5300000007A120002710000F4240\n42000100000001\n430101001F400003E8000000\n",
        repeated: None,
    },
    Case {
        name: "2: the line after a refused one is not reached",
        head: "4300010027100007D0000000\n5300000007A120002710000F4240\n42000100000000\n500001001388\n",
        repeated: None,
    },
    Case {
        name: "33 and not 35: the questions of a line come first",
        head: "42000100000001\n430003000000000000000000\n",
        repeated: None,
    },
    Case {
        name: "the first refusal of two",
        head: "4300010027100007D0000000\n4300010027100007D0000000\n5300000007A120002710000F4240\n5300000007A120002710000F4240\n",
        repeated: None,
    },
    Case {
        name: "37: a text too long",
        head: "",
        repeated: Some(("42090100000001\n", 4370)),
    },
];
