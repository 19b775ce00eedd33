// The texts, by what they show.

pub(crate) struct Case {
    pub(crate) name: &'static str,
    pub(crate) text: &'static str,
}

pub(crate) static CASES: [Case; 7] = [
    Case {
        name: "no line at all",
        text: "",
    },
    Case {
        name: "rows alone, of two classes and a pair",
        text: "4300010027100007D0000000\n430101001F400003E8000000\n500001001388\n",
    },
    Case {
        name: "12: a rate above the whole in line 1",
        text: "4307010186A1000000000000\n4300010027100007D0000000\n",
    },
    Case {
        name: "30: small letters in line 3",
        text: "4300010027100007D0000000\n430101001F400003E8000000\n5300000007a120002710000f4240\n",
    },
    Case {
        name: "4: a net beyond the limit in line 4",
        text: "4300010027100007D0000000\n5304000007A120002710000F4240\n42040105F5E100\n42040100000001\n",
    },
    Case {
        name: "35: a row after a booking",
        text: "42000100000001\n430101001F400003E8000000\n",
    },
    Case {
        name: "21: a held security without a row",
        text: "4300010027100007D0000000\n42C80200000005\n",
    },
];
