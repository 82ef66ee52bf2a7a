ghost use Rattle.ms_cert_check.specs.Laws.{CertifiedFilesPass, FilesWithCertificatesAreChecked, RefusalsHaveLines};

/// Each refusal has a line, and no place. A file that is there with a certificate is refused for want of memory alone, where nothing outside
/// fails; and what is printed of a file beside a certificate of it is what the certificate proves.
pub fn laws_of_checks()
    ensures lines { RefusalsHaveLines }
    ensures checked { FilesWithCertificatesAreChecked }
    ensures passed { CertifiedFilesPass }
{}
