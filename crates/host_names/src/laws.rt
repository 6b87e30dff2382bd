//! Laws of names and folders: empty functions, whose contracts are the laws.
ghost use Rattle.host_names.specs.Laws.{NamesStayInTheirFolder, NamesAreTakenByHosts, NamesArePrinted, NamesKeepTheirEnding, NamesAreFree, NoTwoNamesAreTheSame, FoldersLeadDown, ImagesStayInTheirFolder};

/// Each name of a file stays in its folder, and each host accepts it. It is printable ASCII if the
/// text from which it is made is, as each text form is.
#[inline]
pub fn names_are_safe()
    ensures stays { NamesStayInTheirFolder }
    ensures taken { NamesAreTakenByHosts }
    ensures printed { NamesArePrinted }
{}

/// Each name of a file ends with its ending, and with `.part` after it if the file is written in
/// part.
#[inline]
pub fn names_keep_their_ending()
    ensures { NamesKeepTheirEnding }
{}

/// No two files of an image get the same name, also if small and capital letters count as the same.
#[inline]
pub fn no_two_names_are_the_same()
    ensures free { NamesAreFree }
    ensures distinct { NoTwoNamesAreTheSame }
{}

/// The folders of a path lead down, and the folder of an image lies in the last of them.
#[inline]
pub fn folders_stay_below()
    ensures folders { FoldersLeadDown }
    ensures image { ImagesStayInTheirFolder }
{}
