// The kinds of lines that call, each beside its pattern: N stands for a decimal number, W for a word in hexadecimal, B for bytes.

// On the generator's array.
#[derive(Clone, Copy)]
pub enum OnGenerator {
    Zuc128Start,
    Zuc256Start,
    Eea3Start,
    Eea3StartStrict,
    DrawEach,
    Words,
    DrawInPlace,
    MaskCrate,
    MaskClean,
    Tell,
    Set,
    Turn,
}

// On the tag's array.
#[derive(Clone, Copy)]
pub enum OnTag {
    Zuc128Start,
    Eia3Start,
    Eia3StartStrict,
    Zuc256Start,
    Zuc128Update,
    Zuc256Update,
    Zuc128Finish,
    Zuc256Finish,
    Zuc128Parts,
    Zuc256Parts,
    Tell,
    Set,
    Turn,
}

// In one call, on no array.
#[derive(Clone, Copy)]
pub enum Once {
    Zuc128Tag,
    Eia3Tag,
    Eia3TagStrict,
    Zuc256Tag,
    MaskCrate,
    MaskClean,
    MaskCrateStrict,
    MaskCleanStrict,
    FrameWrite,
    FrameRead,
    Accept,
}

#[derive(Clone, Copy)]
pub enum Kind {
    Generator(OnGenerator),
    Tag(OnTag),
    Once(Once),
}

pub static KINDS: [(&str, Kind); 36] = [
    (
        "zuc128_start key B iv B",
        Kind::Generator(OnGenerator::Zuc128Start),
    ),
    (
        "zuc256_start key B iv B",
        Kind::Generator(OnGenerator::Zuc256Start),
    ),
    (
        "eea3_start count W bearer N direction N key B",
        Kind::Generator(OnGenerator::Eea3Start),
    ),
    ("zuc128_tag_start key B iv B", Kind::Tag(OnTag::Zuc128Start)),
    (
        "eia3_tag_start count W bearer N direction N key B",
        Kind::Tag(OnTag::Eia3Start),
    ),
    (
        "zuc256_tag_start width N key B iv B",
        Kind::Tag(OnTag::Zuc256Start),
    ),
    ("zuc_draw n N", Kind::Generator(OnGenerator::DrawEach)),
    ("zuc_words n N from N", Kind::Generator(OnGenerator::Words)),
    (
        "generate_in_place",
        Kind::Generator(OnGenerator::DrawInPlace),
    ),
    (
        "zuc_mask_crate buf B bits N",
        Kind::Generator(OnGenerator::MaskCrate),
    ),
    (
        "zuc_mask_clean buf B bits N",
        Kind::Generator(OnGenerator::MaskClean),
    ),
    ("zuc128_tag_update msg B", Kind::Tag(OnTag::Zuc128Update)),
    ("zuc256_tag_update msg B", Kind::Tag(OnTag::Zuc256Update)),
    (
        "zuc128_tag_finish msg B bits N",
        Kind::Tag(OnTag::Zuc128Finish),
    ),
    (
        "zuc256_tag_finish msg B bits N",
        Kind::Tag(OnTag::Zuc256Finish),
    ),
    (
        "zuc128_tag_parts size N msg B bits N",
        Kind::Tag(OnTag::Zuc128Parts),
    ),
    (
        "zuc256_tag_parts size N msg B bits N",
        Kind::Tag(OnTag::Zuc256Parts),
    ),
    (
        "zuc128_tag key B iv B msg B bits N",
        Kind::Once(Once::Zuc128Tag),
    ),
    (
        "eia3_tag count W bearer N direction N key B msg B bits N",
        Kind::Once(Once::Eia3Tag),
    ),
    (
        "zuc256_tag width N key B iv B msg B bits N",
        Kind::Once(Once::Zuc256Tag),
    ),
    ("generator", Kind::Generator(OnGenerator::Tell)),
    ("tag", Kind::Tag(OnTag::Tell)),
    ("generator word N is W", Kind::Generator(OnGenerator::Set)),
    ("tag word N is W", Kind::Tag(OnTag::Set)),
    (
        "accept_in highest W accepted W at N count W",
        Kind::Once(Once::Accept),
    ),
    ("generator turned", Kind::Generator(OnGenerator::Turn)),
    ("tag turned", Kind::Tag(OnTag::Turn)),
    (
        "eea3_start_strict count W bearer N direction N key B",
        Kind::Generator(OnGenerator::Eea3StartStrict),
    ),
    (
        "eia3_tag_start_strict count W bearer N direction N key B",
        Kind::Tag(OnTag::Eia3StartStrict),
    ),
    (
        "eia3_tag_strict count W bearer N direction N key B msg B bits N",
        Kind::Once(Once::Eia3TagStrict),
    ),
    (
        "eea3_mask_crate count W bearer N direction N key B buf B bits N",
        Kind::Once(Once::MaskCrate),
    ),
    (
        "eea3_mask_clean count W bearer N direction N key B buf B bits N",
        Kind::Once(Once::MaskClean),
    ),
    (
        "eea3_mask_crate_strict count W bearer N direction N key B buf B bits N",
        Kind::Once(Once::MaskCrateStrict),
    ),
    (
        "eea3_mask_clean_strict count W bearer N direction N key B buf B bits N",
        Kind::Once(Once::MaskCleanStrict),
    ),
    (
        "zuc_frame_write ck B ik B count W bearer N direction N bits N frame B",
        Kind::Once(Once::FrameWrite),
    ),
    (
        "zuc_frame_read ck B ik B frame B",
        Kind::Once(Once::FrameRead),
    ),
];
